// Files of inputs one after the other, each with three numbers of 4 bytes in front, its length and the sizes of the areas for sheet and text. Written are the
// file's name, and then a line for each input: both lengths and the number of types, number, detail and all of both areas, which held a pattern before.
use line::input::{ends_at, four_in, signed_at, units_at};
use line::output::put_line;
use line::stream::{KEPT, read_full};
use metadata::read;
use std::io::Read;
use std::rt::Files;
use std::{fs, io};

// Number, detail and all of both areas; false where they are too long.
fn print_line(
    rt: &impl Print,
    number: u64,
    detail: u64,
    sheet: &[u8],
    text: &[u8],
) -> io::Result<bool> {
    if 65536 < sheet.len() || 65536 < text.len() {
        return Ok(false);
    }
    let mut area = [0; 262190];
    let size = put_line(&mut area, number, detail, sheet, text);
    let Some(line) = area.get(..size) else {
        return Ok(false);
    };
    rt.write_all(line)?;
    Ok(true)
}

// The answer into these areas, with k and mv from what is kept. answer_lines takes both in the same way, and says there why that is no function.
fn show(
    rt: &impl Print,
    kept: &[u8],
    d1: &[u16],
    d2: &[u16],
    ends: &[u32],
    sheet: &mut [u8],
    text: &mut [u8],
) -> io::Result<bool> {
    let k = signed_at(kept, 0);
    let version = [signed_at(kept, 4), signed_at(kept, 8), signed_at(kept, 12)];
    match read(k, version, d1, d2, ends, sheet, text).outcome {
        Ok(sizes) => {
            print!(rt; "{} {} {} ", sizes.sheet, sizes.text, sizes.types)?;
            print_line(rt, 0, 0, sheet, text)
        }
        Err(refusal) => {
            print!(rt; "0 0 0 ")?;
            let (number, detail) = refusal.numbered();
            print_line(rt, number, detail, sheet, text)
        }
    }
}

// The same with d1, d2 and ends from what is kept. answer_lines has these three arrays too, and says there why they are no function's.
fn show_kept(rt: &impl Print, kept: &[u8], sheet: &mut [u8], text: &mut [u8]) -> io::Result<bool> {
    let mut d1 = [0u16; 32769];
    let mut d2 = [0u16; 32769];
    let mut ends = [0u32; 4097];
    let d1_count = units_at(kept, 20, four_in(kept, 0, 16), &mut d1);
    let d2_place = 20 + 2 * d1_count;
    let d2_count = units_at(kept, d2_place + 4, four_in(kept, 0, d2_place), &mut d2);
    let ends_place = d2_place + 4 + 2 * d2_count;
    let ends_count = ends_at(
        kept,
        ends_place + 4,
        four_in(kept, 0, ends_place),
        &mut ends,
    );
    show(
        rt,
        kept,
        &d1[..d1_count],
        &d2[..d2_count],
        &ends[..ends_count],
        sheet,
        text,
    )
}

// One input of a file. False at the file's end, or where the input or an area is too long for what is held here.
fn replay<F: Read>(rt: &impl Print, file: &mut F) -> io::Result<bool> {
    let mut head = [0u8; 12];
    if read_full(file, &mut head) < head.len() {
        return Ok(false);
    }
    let size = four_in(&head, 0, 0);
    let sheet_size = four_in(&head, 0, 4);
    let text_size = four_in(&head, 0, 8);
    if KEPT < size || 65536 < sheet_size || 65536 < text_size {
        return Ok(false);
    }
    let mut kept = [0; KEPT];
    let mut sheet = [0xa5; 65536];
    let mut text = [0xa5; 65536];
    let got = read_full(file, &mut kept[..size]);
    show_kept(
        rt,
        &kept[..got],
        &mut sheet[..sheet_size],
        &mut text[..text_size],
    )
}

// All inputs of a file.
fn replay_all<F: Read>(rt: &impl Print, file: &mut F) -> io::Result<()> {
    // A loop has to end, and a reader need not.
    for _ in 0..1000000 {
        if !replay(rt, file)? {
            break;
        }
    }
    Ok(())
}

// The file of this name, after a line with the name. One that can't be opened has no inputs.
pub(crate) fn replay_named<R: Files + Print>(rt: &R, name: &str) -> io::Result<()> {
    println!(rt; "{name}")?;
    match fs::open(rt, name) {
        Ok(mut file) => replay_all(rt, &mut file),
        Err(_) => Ok(()),
    }
}
