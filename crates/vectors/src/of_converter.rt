// Both conversions on the inputs of BitEncoding's own test, and on cases made for each refusal. README.md says what a line shows.
use crate::hex::read_units;
use converter::{ConvertFault, new_to_old, old_to_new};
use std::io;

// What came of several inputs: how many were converted, how many of these came back, and a checksum of the old units.
#[derive(Clone, Copy)]
struct Tally {
    converted: u64,
    back: u64,
    sum: u64,
}

// The lowest byte of a number, in two hex digits.
fn write_byte(rt: &impl Print, n: u64) -> io::Result<()> {
    print!(rt; "{:02x}", n % 256)
}

// A number in four hex digits, after a space.
fn write_number(rt: &impl Print, n: u64) -> io::Result<()> {
    print!(rt; " {:04x}", n % 65536)
}

fn write_units(rt: &impl Print, units: &[u16]) -> io::Result<()> {
    print!(rt; " ")?;
    for unit in units {
        write_byte(rt, u64::from(*unit))?;
    }
    Ok(())
}

// A step of java.util.Random: its 48 bits times 25,214,903,917, plus 11, in two halves of 24 bits.
fn step(state: u64) -> u64 {
    let low = state % 16777216;
    let high = state / 16777216 % 16777216;
    (low * 25214903917 + high * 25214903917 % 16777216 * 16777216 + 11) % 281474976710656
}

// The marker, and the bytes of java.util.Random with this seed: each step gives 32 bits, the lowest byte first.
fn fill(d1: &mut [u16], seed: u64) {
    let mut state = seed ^ 25214903917;
    let mut word: u64 = 0;
    for (i, unit) in d1.iter_mut().enumerate() {
        if i % 4 == 1 {
            state = step(state);
            word = state / 65536;
        }
        *unit = (word % 256) as u16;
        word /= 256;
    }
}

fn checksum(sum: u64, units: &[u16]) -> u64 {
    let mut now = sum;
    for unit in units {
        now = (now % 4294967296 * 31 + u64::from(*unit)) % 4294967296;
    }
    now
}

// One more, where it is to be counted.
fn counted(n: u64, more: bool) -> u64 {
    if more {
        return n % 65536 + 1;
    }
    n
}

// One input of the test: from new to old and back.
fn convert(d1: &[u16], units: &mut [u16], back: &mut [u16], tally: Tally) -> Tally {
    let Ok(length) = new_to_old(d1, units) else {
        return tally;
    };
    let old = &units[..length];
    let sum = checksum(tally.sum, old);
    let again = match old_to_new(old, back) {
        Ok(n) => &back[..n] == d1,
        Err(_) => false,
    };
    Tally {
        converted: counted(tally.converted, true),
        back: counted(tally.back, again),
        sum,
    }
}

// The inputs of one length, by seeds from 1 on.
fn convert_all(seeds: u64, d1: &mut [u16], units: &mut [u16], back: &mut [u16]) -> Tally {
    let mut tally = Tally {
        converted: 0,
        back: 0,
        sum: 0,
    };
    for seed in 1..=seeds {
        fill(d1, seed);
        tally = convert(&*d1, units, back, tally);
    }
    tally
}

// How many bytes, how many inputs were converted, how many of these came back, the checksum.
fn write_tally(rt: &impl Print, length: usize, tally: Tally) -> io::Result<()> {
    write_number(rt, length as u64)?;
    write_number(rt, tally.converted)?;
    write_number(rt, tally.back)?;
    write_number(rt, tally.sum / 65536)?;
    write_number(rt, tally.sum % 65536)
}

// The test's inputs of one length, and the old units of the first.
fn show(
    rt: &impl Print,
    length: usize,
    d1: &mut [u16],
    units: &mut [u16],
    back: &mut [u16],
) -> io::Result<()> {
    let tally = convert_all(100, d1, units, back);
    write_tally(rt, length, tally)?;
    fill(d1, 1);
    match new_to_old(d1, units) {
        Ok(length) => write_units(rt, &units[..length])?,
        Err(_) => write_units(rt, &[])?,
    }
    println!(rt)
}

fn short(rt: &impl Print, length: usize) -> io::Result<()> {
    let mut d1 = [0u16; 101];
    let mut units = [0u16; 128];
    let mut back = [0u16; 128];
    if length < 101 {
        show(rt, length, &mut d1[..length + 1], &mut units, &mut back)?;
    }
    Ok(())
}

fn all_short(rt: &impl Print) -> io::Result<()> {
    for length in 0..=100 {
        short(rt, length)?;
    }
    Ok(())
}

// The longer ones that the limits allow, and one above them.
fn long(rt: &impl Print, length: usize) -> io::Result<()> {
    let mut d1 = [0u16; 33001];
    let mut units = [0u16; 37448];
    let mut back = [0u16; 32769];
    if length <= 33000 {
        let tally = convert_all(3, &mut d1[..length + 1], &mut units, &mut back);
        write_tally(rt, length, tally)?;
        println!(rt)?;
    }
    Ok(())
}

// Number, detail, length, and the whole area afterwards.
fn write_answer(
    rt: &impl Print,
    answer: Result<usize, ConvertFault>,
    area: &[u16],
) -> io::Result<()> {
    let (number, detail, length) = match answer {
        Ok(length) => (0, 0, length),
        Err(fault) => {
            let (number, detail) = fault.numbered();
            (number, detail, 0)
        }
    };
    write_number(rt, number)?;
    write_number(rt, detail)?;
    write_number(rt, length as u64)?;
    write_units(rt, area)
}

// An input both ways, into areas of nine units.
fn both(rt: &impl Print, d1: &[u16]) -> io::Result<()> {
    let mut area = [0xeeu16; 9];
    let answer = old_to_new(d1, &mut area);
    write_answer(rt, answer, &area)?;
    let mut other = [0xeeu16; 9];
    let answer = new_to_old(d1, &mut other);
    write_answer(rt, answer, &other)?;
    println!(rt)
}

// A case: d1's units.
pub(crate) fn show_case(rt: &impl Print, case: &[u8]) -> io::Result<()> {
    let mut units = [0u16; 16];
    let count = read_units(case, &mut units);
    both(rt, &units[..count])
}

// As many units as a line can't hold: the most that are converted, and one more.
pub(crate) fn show_limits(rt: &impl Print) -> io::Result<()> {
    let at_limit = [1u16; 32768];
    both(rt, &at_limit)?;
    let over = [0u16; 32769];
    both(rt, &over)
}

// The inputs of BitEncoding's own test.
pub(crate) fn run_test(rt: &impl Print) -> io::Result<()> {
    all_short(rt)?;
    long(rt, 1000)?;
    long(rt, 32000)?;
    long(rt, 33000)
}
