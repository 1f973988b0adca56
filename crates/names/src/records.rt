// The records of the name table, read from their messages, and their index. The definitions: specs/Records.antt, specs/told/Index.antt; how
// the answers tell them: specs/told/RecordTold.antt.
ghost use Rattle.std.specs.Prelude.{◌≡◌, ◌+◌, ◌*◌, ◌<◌, length, set};
ghost use Rattle.foundation.specs.told.Located.{told_part};
ghost use Rattle.foundation.specs.Results.{ok};
ghost use Rattle.wire.specs.Wire.{cut, Message};
ghost use Rattle.wire.specs.Messages.{varints};
ghost use Rattle.messages.specs.told.Asked.{FoundTold, index_told};
ghost use Rattle.wire.specs.told.WireTold.{rest_of};
ghost use Rattle.names.specs.declared.records.IndexError.TheVariants.{Wire};
ghost use Rattle.names.specs.Records.{served, two_of};
ghost use Rattle.names.specs.told.Index.{pair_places, PairPartTold, NotedTold, IndexTold};
ghost use Rattle.names.specs.told.RecordTold.{operation_in, both_numbers, RecordTold};

use fields::{
    RECORD_OPERATION, RECORD_PREDEFINED_INDEX, RECORD_RANGE, RECORD_REPLACE_CHAR, RECORD_STRING,
    RECORD_SUBSTRING_INDEX, STRING_TABLE_TYPES_LOCAL_NAME, STRING_TABLE_TYPES_RECORD,
};
use foundation::{Located, Span};
use messages::repeated::{Two, check_varints, first_two};
use messages::{bodies_from, check, find_each, index, index_in, number_in, piece_in};
use wire::{WireError, WireValue};

// How many indices a record serves: range 0 counts as 1, and so does no range.
fn served(range: Option<u32>) -> u32
    ensures { result ≡ served (index_told range) }
{
    match range {
        None | Some(0) => 1,
        Some(index) => index,
    }
}

fn operation_in(found: Option<WireValue>) -> u64
    ensures { result ≡ operation_in found }
{
    number_in(found).unwrap_or(0)
}

// A step's two numbers. Errors in its values, or fewer than two of them, mean that the step isn't taken.
fn two_in(message: Located<'_>, number: u32, found: Option<WireValue>) -> Two
    ensures { FoundTold message.entry.base message.entry.bytes.now number found → (m : Message) → cut (told_part message.entry) ≡ ok m → two_of (varints number m) ≡ both_numbers result }
{
    match found {
        None => Two::Neither,
        Some(_) => first_two(message, number).unwrap_or(Two::Neither),
    }
}

#[derive(Clone, Copy)]
pub struct Record {
    pub range: u32,
    // its place in the slice that was read
    pub string: Option<Span>,
    pub predefined: Option<u32>,
    // its number as it came: what it does is `Operation::of` it, which tells fewer numbers apart
    pub operation: u64,
    // the step is taken if both numbers are there
    pub substring: Two,
    pub replaced: Two,
}

// The record of a message that is cut: one walk finds the first occurrence of each of its fields.
pub fn record_in(message: Located<'_>) -> Record
    ensures { RecordTold message.entry.base message.entry.bytes.now result }
{
    let [range, predefined, operation, substring, replaced, string] = find_each(
        message,
        [
            RECORD_RANGE,
            RECORD_PREDEFINED_INDEX,
            RECORD_OPERATION,
            RECORD_SUBSTRING_INDEX,
            RECORD_REPLACE_CHAR,
            RECORD_STRING,
        ],
    );
    Record {
        range: served(index_in(range)),
        string: piece_in(string),
        predefined: index_in(predefined),
        operation: operation_in(operation),
        substring: two_in(message, RECORD_SUBSTRING_INDEX, substring),
        replaced: two_in(message, RECORD_REPLACE_CHAR, replaced),
    }
}

// Why there is no index: the lent notes have no room for it, or the messages are refused.
#[derive(Clone, Copy, Debug, PartialEq, Eq)]
pub enum IndexError {
    NoRoom,
    Wire(WireError),
}

impl From<WireError> for IndexError {
    ghost from_gives = { λ error made. made ≡ Wire error };

    fn from(error: WireError) -> IndexError {
        IndexError::Wire(error)
    }
}

// A place among the decoded bytes has 32 bits in a note.
const PLACES: u64 = 4294967296;

// Two places in one number. Two numbers of 32 bits and no `Span`, so that nothing is asked of a caller.
pub fn place_pair(start: u32, end: u32) -> u64
    ensures { result ≡ pair_places start end }
{
    u64::from(start) + PLACES * u64::from(end)
}

// The part that two places in one number name, if it lies in so many bytes.
pub fn part_of_pair(places: u64, size: usize) -> Option<Span>
    ensures { PairPartTold places size result }
{
    // `as`, here and in `note_records`: both halves are below 2^32, and Rust has no `From` between `usize` and `u32` or `u64`.
    let start = (places % PLACES) as usize;
    let end = (places / PLACES) as usize;
    if end < start || size < end {
        return None;
    }
    Some(Span { start, end })
}

// What is noted of a record takes so many words: where it stands, a word that is free, and the first index past those that it serves. Once it
// is worked out (`lookup::resolve`) the first two say what it builds.
// Words and no struct: the caller lends a fixed number of them for records, entries and sizes alike, since there is no heap.
pub const RECORD_WORDS: usize = 3;

// The words of record `count`, which ends where the index `next` begins.
// This and `note_records` aren't one with schema's `put_entry` and `note_entries`: those sum up no index, and one function for both would take
// more parameters and more laws.
fn put_entry(notes: &mut [u64], count: usize, start: u32, end: u32, next: u64)
    requires { 3 * count + 2 < length notes.old }
    ensures { notes.new ≡ set (set notes.old (3 * count) (pair_places start end)) (3 * count + 2) next }
{
    let at = RECORD_WORDS * count;
    notes[at] = place_pair(start, end);
    notes[at + 2] = next;
}

// Cuts the records of the name table in `bytes` from `at` on, and notes for each where it stands and the first index that it serves. How
// many there are.
fn note_records(bytes: &[u8], at: usize, notes: &mut [u64]) -> Result<usize, IndexError>
    ensures { (m : Message) → cut (rest_of 0 bytes.now at) ≡ ok m → NotedTold bytes.now at m notes.new result }
{
    if 4294967295 < bytes.len() {
        return Err(IndexError::NoRoom);
    }
    let room = notes.len() / RECORD_WORDS;
    let mut total: u64 = 0;
    // Counted by hand: the number of records is the answer, and the index of an `enumerate` ends with the loop.
    let mut count: usize = 0;
    let table = Located::whole(bytes);
    for record in bodies_from(table, STRING_TABLE_TYPES_RECORD, at) {
        let message = Located::of(bytes, record);
        check(message)?;
        if room <= count {
            return Err(IndexError::NoRoom);
        }
        let range = served(index(message, RECORD_RANGE));
        total += u64::from(range);
        put_entry(notes, count, record.start as u32, record.end as u32, total);
        count += 1;
    }
    Ok(count)
}

// The index of a name table, and how many records it has: `bytes` are the decoded ones up to its end, and it begins at `at`. An error in the
// local names refuses after all records are cut.
pub fn index_records(bytes: &[u8], at: usize, notes: &mut [u64]) -> Result<usize, IndexError>
    ensures { (m : Message) → cut (rest_of 0 bytes.now at) ≡ ok m → IndexTold bytes.now at m notes.new result }
{
    if bytes.len() < at {
        return Err(IndexError::NoRoom);
    }
    let count = note_records(bytes, at, notes)?;
    let table = Located::rest(bytes, at);
    check_varints(table, STRING_TABLE_TYPES_LOCAL_NAME)?;
    Ok(count)
}
