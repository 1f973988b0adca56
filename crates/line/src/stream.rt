// The input read from standard input, a file or any other reader. Its beginning is kept, as much as an input within the limits can have; of the
// rest only the counts are taken. What is promised holds of the bytes that the reads gave, whatever they are. Of a reader whose bytes are known, as bytes
// in memory, it is promised too that the reads gave these bytes.
ghost use Rattle.std.specs.Prelude.{◌≡◌, ◌+◌, ◌^◌, ◌≤◌, ◌<◌, length, take};
ghost use Rattle.std.specs.Io.KnownBytes.{Consumes};
ghost use Rattle.line.specs.told.Pieces.{CountsFit};
ghost use Rattle.line.specs.told.Taken.{Begun, PieceGiven, PassedGiven, WentGiven, TookGiven};

use crate::input::{Counts, counts_in};
use std::io::Read;

// How much is kept: 28 bytes of numbers and counts, 32,768 units of d1 and of d2, and 4,096 ends.
pub const KEPT: usize = 147484;

// What was read: the counts, how many bytes, and how many of them are kept.
#[derive(Clone, Copy, Default)]
pub struct Taken {
    pub counts: Counts,
    pub total: usize,
    pub kept: usize,
}

// Reads until the area is full or the reader's bytes end; a read that fails ends them too. Answers how many bytes stand at the area's beginning:
// those that the reader has given. A loop by hand: each read goes on behind the last, and tells itself how many bytes it gave.
pub fn read_full<R: Read>(reader: &mut R, area: &mut [u8]) -> usize
    ensures inside { result ≤ length area.new }
    ensures same_length { length area.new ≡ length area.old }
    ensures given { Consumes (R.remaining reader.old) (R.remaining reader.new) (take result area.new) }
{
    let mut done = 0;
    while done < area.len() {
        match reader.read(&mut area[done..]) {
            Ok(0) | Err(_) => return done,
            Ok(count) => done += count,
        }
    }
    done
}

// The next piece of the input, read into an area; its counts are taken.
// 2 ^ 40, here and below, leaves room to add a piece to what was read. A limit is a written number or one of 4 bytes, so far smaller.
fn take_piece<R: Read>(reader: &mut R, area: &mut [u8], taken: Taken) -> Taken
    requires { CountsFit taken.counts × (taken.total ≤ 2 ^ 40) × (length area.old ≤ 2 ^ 40) }
    ensures { PieceGiven (R.remaining reader.old) (R.remaining reader.new) area.new taken result }
{
    let size = read_full(reader, area);
    Taken {
        counts: counts_in(&area[..size], taken.total, taken.counts),
        total: taken.total + size,
        ..taken
    }
}

// A piece of at most `room` bytes that is not kept.
fn pass_piece<R: Read>(reader: &mut R, room: usize, taken: Taken) -> Taken
    requires { CountsFit taken.counts × (taken.total ≤ 2 ^ 40) }
    ensures { PassedGiven (R.remaining reader.old) (R.remaining reader.new) room taken result }
{
    let mut buffer = [0u8; 65536];
    let size = room.min(65536);
    take_piece(reader, &mut buffer[..size], taken)
}

// Reads on to the input's end, or until `limit` bytes were read in all. A loop by hand: only reading tells how many pieces there are.
fn pass_rest<R: Read>(reader: &mut R, limit: usize, first: Taken) -> Taken
    requires { Begun first × (limit ≤ 2 ^ 40) }
    ensures { WentGiven (R.remaining reader.old) (R.remaining reader.new) first result }
{
    let mut taken = first;
    while taken.total < limit {
        let before = taken.total;
        let next = pass_piece(reader, limit - before, taken);
        if next.total == before {
            return taken;
        }
        taken = next;
    }
    taken
}

// Reads an input of at most `limit` bytes and keeps its beginning.
// Callers show that places fit 64 bits: answer_lines asks that of its own callers.
pub fn take_input<R: Read>(reader: &mut R, area: &mut [u8; KEPT], limit: usize) -> Taken
    requires { limit ≤ 2 ^ 40 }
    ensures { TookGiven (R.remaining reader.old) (R.remaining reader.new) area.new result }
{
    let most = limit.min(KEPT);
    let first = take_piece(reader, &mut area[..most], Taken::default());
    let begun = Taken {
        kept: first.total,
        ..first
    };
    if begun.total < KEPT {
        return begun;
    }
    pass_rest(reader, limit, begun)
}
