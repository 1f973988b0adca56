// The line for an input that was read: what is kept of it goes to the reader, with areas of 65,536 bytes.
#![tactic(auto)]

ghost use Rattle.std.specs.Prelude.{◌<◌, ◌≤◌, ◌^◌};
ghost use Rattle.line.specs.told.Pieces.{CountsFit};
ghost use Rattle.answer_lines.specs.Program.{WroteGiven};
ghost use Rattle.answer_lines.specs.told.LineTold.{WroteRead, WroteKept, WrotePrinted};

use line::input::{Counts, ends_at, input_end, signed_at, units_at};
use line::output::put_line;
use line::stream::{KEPT, Taken, take_input};
use metadata::read;
use std::io::Read;

// The reader's answer to d1, d2 and ends, with k and mv from what is kept. replays takes both in the same way: one function for these two lines would
// need a definition, a contract and laws of its own, which are longer.
fn put_read(kept: &[u8], d1: &[u16], d2: &[u16], ends: &[u32], area: &mut [u8]) -> usize
    ensures { WroteRead kept.now d1.now d2.now ends.now result area.old area.new }
{
    let k = signed_at(kept, 0);
    let version = [signed_at(kept, 4), signed_at(kept, 8), signed_at(kept, 12)];
    let mut sheet = [0u8; 65536];
    let mut text = [0u8; 65536];
    match read(k, version, d1, d2, ends, &mut sheet, &mut text).outcome {
        Ok(sizes) => put_line(area, 0, 0, &sheet[..sizes.sheet], &text[..sizes.text]),
        Err(refusal) => {
            let (number, detail) = refusal.numbered();
            put_line(area, number, detail, &[], &[])
        }
    }
}

// The same with d1, d2 and ends from what is kept, by the counts. replays has these three arrays too: there is no heap, and a function that gave them
// back would copy 147 KB.
fn put_kept(kept: &[u8], counts: Counts, area: &mut [u8]) -> usize
    requires { CountsFit counts }
    ensures { WroteKept kept.now counts result area.old area.new }
{
    let mut d1 = [0u16; 32769];
    let mut d2 = [0u16; 32769];
    let mut ends = [0u32; 4097];
    let d2_place = 24 + 2 * counts.d1;
    let ends_place = d2_place + 4 + 2 * counts.d2;
    let d1_count = units_at(kept, 20, counts.d1, &mut d1);
    let d2_count = units_at(kept, d2_place, counts.d2, &mut d2);
    let ends_count = ends_at(kept, ends_place, counts.ends, &mut ends);
    put_read(
        kept,
        &d1[..d1_count],
        &d2[..d2_count],
        &ends[..ends_count],
        area,
    )
}

// The line for the bytes that were read. Their counts are numbers of 4 bytes, so that places can be summed.
fn put_answer(kept: &[u8], taken: Taken, area: &mut [u8]) -> usize
    requires { CountsFit taken.counts }
    ensures { WrotePrinted kept.now taken result area.old area.new }
{
    let counts = taken.counts;
    if taken.total < input_end(counts) {
        sheet::put_all(area, 0, b"input\n");
        return 6;
    }
    put_kept(kept, counts, area)
}

// Reads an input of at most `limit` bytes and puts its line into the area.
// Callers show that places of a read that goes on fit 64 bits: the limit of sheet_reader is a written number, that of replays one of 4 bytes.
pub fn answer_input<R: Read>(reader: &mut R, limit: usize, area: &mut [u8]) -> usize
    requires { limit ≤ 2 ^ 40 }
    ensures { WroteGiven (R.remaining reader.old) (R.remaining reader.new) result area.old area.new }
{
    let mut kept = [0u8; KEPT];
    let taken = take_input(reader, &mut kept, limit);
    let size = taken.kept;
    put_answer(&kept[..size], taken, area)
}
