// The line that the program prints, written into an area: number and detail in decimal, sheet and text in hex. A write past the area's end is
// left out, and the place after it is counted all the same. So `fmt::Write` isn't used: its answers tell no place, and not what was left out.
ghost use Rattle.std.specs.Prelude.{◌≡◌, false, ◌+◌, ◌^◌, ◌<◌, length};
ghost use Rattle.std.specs.Fmt.{digit_glyph};
ghost use Rattle.line.specs.Line.{decimal, hex_of, part_of, line_of};
ghost use Rattle.line.specs.Wrote.{Wrote};

use foundation::put;
use itoa::Buffer;

// Here and below a place and a length are asked to be far below 2 ^ 64, so that the place after what is put fits, as for places in input.rt.
fn put_decimal(area: &mut [u8], at: usize, n: u64) -> usize
    requires { at < 2 ^ 60 }
    ensures { Wrote (decimal n) at result area.old area.new }
{
    let mut buffer = Buffer::new();
    let digits = buffer.format(n).as_bytes();
    sheet::put_all(area, at, digits);
    at + digits.len()
}

// A digit of base 16, in lower case.
fn glyph(digit: u8) -> u8
    requires { digit < 16 }
    ensures { result ≡ digit_glyph false digit }
{
    if digit < 10 {
        b'0' + digit
    } else {
        b'a' + (digit - 10)
    }
}

fn put_hex(area: &mut [u8], at: usize, bytes: &[u8]) -> usize
    requires { (at < 2 ^ 60) × (length bytes.now < 2 ^ 60) }
    ensures { Wrote (hex_of bytes.now) at result area.old area.new }
{
    for (i, &byte) in bytes.iter().enumerate() {
        let place = at + 2 * i;
        put(area, place, glyph(byte / 16));
        put(area, place + 1, glyph(byte % 16));
    }
    at + 2 * bytes.len()
}

// A space, and the bytes in hex, or "-" if there are none.
fn put_part(area: &mut [u8], at: usize, bytes: &[u8]) -> usize
    requires { (at < 2 ^ 59) × (length bytes.now < 2 ^ 60) }
    ensures { Wrote (part_of bytes.now) at result area.old area.new }
{
    put(area, at, b' ');
    if bytes.is_empty() {
        put(area, at + 1, b'-');
        return at + 2;
    }
    put_hex(area, at + 1, bytes)
}

// The whole line. Each byte takes two digits.
// Callers show that the place after it can be counted: sheet and text are within areas of 65,536 bytes.
pub fn put_line(area: &mut [u8], number: u64, detail: u64, sheet: &[u8], text: &[u8]) -> usize
    requires { (length sheet.now < 2 ^ 50) × (length text.now < 2 ^ 50) }
    ensures { Wrote (line_of number detail sheet.now text.now) 0 result area.old area.new }
{
    let after_number = put_decimal(area, 0, number);
    put(area, after_number, b' ');
    let after_detail = put_decimal(area, after_number + 1, detail);
    let after_sheet = put_part(area, after_detail, sheet);
    let after_text = put_part(area, after_sheet, text);
    put(area, after_text, b'\n');
    after_text + 1
}
