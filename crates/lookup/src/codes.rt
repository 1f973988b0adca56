// A code for each of the first indices: the record that serves it. It is a hint that a look-up tests before it believes it, so that no
// promise rests on it; without one record 0 is tried. The places of codes and sizes in the notes: specs/told/Strings.antt.
// The notes are words of a fixed number that the caller lends, since there is no heap: so a code is a number in a word, found by its place.
ghost use Rattle.std.specs.Prelude.{◌≡◌, ◌*◌, ◌≤◌, ◌<◌, length};
ghost use Rattle.lookup.specs.told.Strings.{codes_in, sizes_from, codes_from, Keeps};

use names::records::RECORD_WORDS;

// How many words are for the sizes of long strings.
const SIZES: usize = 32;

fn codes_in(words: usize) -> usize
    ensures { result ≡ codes_in words }
{
    (words / 4).min(2048)
}

// Where the codes begin in notes of so many words: what is noted of both tables stands before it.
pub fn codes_from(words: usize) -> usize
    ensures { result ≡ codes_from words }
{
    (words - codes_in(words)).saturating_sub(SIZES)
}

// Where the sizes begin.
pub(crate) fn sizes_from(words: usize) -> usize
    ensures { result ≡ sizes_from words }
{
    words.saturating_sub(SIZES)
}

// The code of an index, if it has one.
pub(crate) fn code_at(notes: &[u64], index: usize) -> Option<usize> {
    if codes_in(notes.len()) <= index {
        return None;
    }
    // `as`, here and below: Rust has no `From` between `usize` and `u64`.
    Some((notes[codes_from(notes.len()) + index] % 65536) as usize)
}

// The next record where the indices of this one have ended.
fn record_for(notes: &[u64], count: usize, at: usize, index: u64) -> usize
    requires { (3 * count ≤ length notes.now) × (at < count) }
    ensures { result < count }
{
    if at + 1 < count && notes[RECORD_WORDS * at + 2] <= index {
        at + 1
    } else {
        at
    }
}

// Notes the code of each of the first indices that `count` records serve. `notes` and `count` are no struct, here and in `resolve`: it would be made
// for these two calls alone, since a `Context` has both for all that only reads.
pub fn note_codes(notes: &mut [u64], count: usize)
    ensures { Keeps (codes_from (length notes.old)) notes.old notes.new }
{
    let from = codes_from(notes.len());
    if count == 0 || notes.len() / RECORD_WORDS < count {
        return;
    }
    let past = notes[RECORD_WORDS * count - 1];
    let codes = codes_in(notes.len()) as u64;
    let mut at = 0;
    for index in 0..past.min(codes) {
        at = record_for(notes, count, at, index);
        notes[from + index as usize] = at as u64;
    }
}
