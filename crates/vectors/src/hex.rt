// Numbers, bytes and units in hex, as a line of the input has them and as they are written.
ghost use Rattle.std.specs.Prelude.{◌≤◌, ◌<◌, length};

use std::io;

fn digit(c: u8) -> u8
    ensures { result ≤ 15 }
{
    match c {
        b'0'..=b'9' => c - b'0',
        b'a'..=b'f' => c - b'a' + 10,
        _ => 0,
    }
}

// A number in hex, of its last eight digits.
pub(crate) fn number(s: &[u8]) -> u32 {
    let mut n: u32 = 0;
    for c in s {
        n = n % 268435456 * 16 + u32::from(digit(*c));
    }
    n
}

// Reads numbers of so many hex digits each, as far as the area goes. The answer is how many were read.
fn read_numbers<T: Drop, F: Fn(u32) -> T>(s: &[u8], digits: usize, area: &mut [T], item: F) -> usize
    requires some { 0 < digits }
    requires callable { F.IsAlwaysCallable item }
    ensures { result ≤ length area.new }
{
    for (place, number_of) in area.iter_mut().zip(s.chunks_exact(digits)) {
        *place = item(number(number_of));
    }
    area.len().min(s.len() / digits)
}

pub(crate) fn read_bytes(s: &[u8], area: &mut [u8]) -> usize
    ensures { result ≤ length area.new }
{
    read_numbers(s, 2, area, |n| (n % 256) as u8)
}

pub(crate) fn read_units(s: &[u8], area: &mut [u16]) -> usize
    ensures { result ≤ length area.new }
{
    read_numbers(s, 4, area, |n| (n % 65536) as u16)
}

// Places of at most two digits.
pub(crate) fn read_places(s: &[u8], area: &mut [u32]) -> usize
    ensures { result ≤ length area.new }
{
    read_numbers(s, 2, area, |n| n)
}

pub(crate) fn write_bytes(rt: &impl Print, bytes: &[u8]) -> io::Result<()> {
    for byte in bytes {
        print!(rt; "{byte:02x}")?;
    }
    Ok(())
}
