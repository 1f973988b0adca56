// d1's decoded: the bytes in hex ("-" if there are none); else document 01's number and detail, or "room", and the area, which stays as it was.
use crate::hex::{number, read_units, write_bytes};
use encoding::DecodeError;
use std::io;

fn write_refusal(rt: &impl Print, error: DecodeError) -> io::Result<()> {
    match error {
        DecodeError::TooLong => print!(rt; "1 "),
        DecodeError::Empty => print!(rt; "5 "),
        DecodeError::NotAByte { unit } => print!(rt; "6 {unit:04x} "),
        DecodeError::NoRoom => print!(rt; "room "),
    }
}

// One d1, decoded into an area of EE hex.
fn write_answer(rt: &impl Print, d1: &[u16], area: &mut [u8]) -> io::Result<()> {
    match encoding::decode(d1, area) {
        Ok(0) => print!(rt; "-")?,
        Ok(length) => write_bytes(rt, &area[..length])?,
        Err(error) => {
            write_refusal(rt, error)?;
            write_bytes(rt, area)?;
        }
    }
    println!(rt)
}

// A case: how many bytes the area has, eight at most, and d1's units.
pub(crate) fn show(rt: &impl Print, case: &[u8]) -> io::Result<()> {
    let mut parts = case.split(|byte| *byte == b'|');
    let room = number(parts.next().unwrap_or(&[])) as usize;
    let mut units = [0u16; 16];
    let count = read_units(parts.next().unwrap_or(&[]), &mut units);
    let mut area = [0xeeu8; 8];
    write_answer(rt, &units[..count], &mut area[..room.min(8)])
}

// As many units as a line can't hold: the most that are read, and one more.
pub(crate) fn show_limits(rt: &impl Print) -> io::Result<()> {
    let mut area = [0xeeu8; 8];
    let at_limit = [0u16; 32768];
    write_answer(rt, &at_limit, &mut area)?;
    let over = [0u16; 32769];
    write_answer(rt, &over, &mut area)
}
