// The sizes of long strings of d2, measured once for all look-ups. What is noted: specs/told/Strings.antt.
ghost use Rattle.std.specs.Prelude.{◌≡◌, true, List, ℕ, ◌+◌, ◌≤◌, length};
ghost use Rattle.names.specs.Names.{ends_fit};
ghost use Rattle.lookup.specs.told.Strings.{sizes_from, Keeps, SizeOf, SizesOf, StringNoted};

use crate::codes::sizes_from;
use crate::d2_extent;
use characters::measure::utf8_size;
use foundation::Span;

// A string of d2 of so many units is long: at most 32 are.
const LONG: usize = 1024;

// The size that is noted of the string with an index; 0 where none is, as in `Name`.
fn noted_size(notes: &[u64], index: u32) -> usize
    ensures { (units ends : List ℕ) → SizesOf units ends notes.now → SizeOf units ends index result }
{
    let wanted = u64::from(index);
    let sizes = &notes[sizes_from(notes.len())..];
    let Some(word) = sizes.iter().copied().find(|word| *word % 65536 == wanted) else {
        return 0;
    };
    // `as`, here and below: Rust has no `From` between `usize` and numbers of a fixed width.
    (word / 65536) as usize
}

// Is a string of d2 that stands here long?
fn is_long(part: Span) -> bool
    ensures { result ≡ true → part.start ≤ part.end }
{
    part.start <= part.end && LONG <= part.end - part.start
}

// The size of the string with an index, which stands at `part`: the one that is noted if it is long, else 0.
pub(crate) fn size_at(notes: &[u64], index: u32, part: Span) -> usize
    ensures { (units ends : List ℕ) → SizesOf units ends notes.now → SizeOf units ends index result }
{
    if is_long(part) {
        return noted_size(notes, index);
    }
    0
}

// No size is noted.
fn clear_sizes(notes: &mut [u64])
    ensures { Keeps (sizes_from (length notes.old)) notes.old notes.new × ((units ends : List ℕ) → SizesOf units ends notes.new) }
{
    let from = sizes_from(notes.len());
    notes[from..].fill(0);
}

// Notes the size of one string at a place among the sizes, if it is long. Answers the place for the next.
fn note_string(units: &[u16], ends: &[u32], index: u32, notes: &mut [u64], at: usize) -> usize
    requires { (length units.now ≤ 32768) × (length notes.old ≤ at + 32) }
    ensures { StringNoted units.now ends.now notes.old notes.new result }
{
    let Some(part) = d2_extent(ends, index) else {
        return at;
    };
    if !is_long(part) || units.len() < part.end || 65535 < index || notes.len() <= at {
        return at;
    }
    let size = utf8_size(&units[part.start..part.end]);
    notes[at] = u64::from(index) + 65536 * (size as u64);
    at + 1
}

// Notes the sizes of d2's long strings.
// Callers show that d2 is within its limit, so that sizes can be counted: declarations::payload requires the same.
pub fn note_strings(units: &[u16], ends: &[u32], notes: &mut [u64])
    requires { length units.now ≤ 32768 }
    ensures { Keeps (sizes_from (length notes.old)) notes.old notes.new × (ends_fit 0 ends.now (length units.now) ≡ true → SizesOf units.now ends.now notes.new) }
{
    clear_sizes(notes);
    if units.len() < LONG {
        return;
    }
    let mut at = sizes_from(notes.len());
    for index in 0..ends.len().min(65535) {
        at = note_string(units, ends, index as u32, notes, at);
    }
}
