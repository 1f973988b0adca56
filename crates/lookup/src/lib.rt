// Names by their index. The definitions: names' specs/Names.antt and specs/told/Index.antt; what look-ups tell: specs/told/Lookups.antt.
#![tactic(auto)]

ghost use Rattle.std.specs.Prelude.{◌≡◌, true, false, List, ℕ, ◌+◌, ◌*◌, ◌≤◌, ◌<◌, length, IfSome};
ghost use Rattle.std.proofs.Math.ListN.{get_elem?};
ghost use Rattle.names.specs.Records.{Record};
ghost use Rattle.foundation.specs.Results.{ok};
ghost use Rattle.names.specs.told.Name.{name_text};
ghost use Rattle.names.specs.Names.{strings_from, ends_fit, d2_string, string};
ghost use Rattle.lookup.specs.told.Lookups.{ServesTold, FindTold, PlaceTold, NotesOf, NotedWords, DecidedTold, decided_in};
ghost use Rattle.names.specs.told.Index.{served_from};
ghost use Rattle.record_names.specs.told.Steps.{extent_of};
ghost use Rattle.lookup.specs.told.Strings.{SizesOf};

pub mod codes; // codes.rt: a code for each of the first indices
pub mod strings; // strings.rt: the sizes of long strings of d2
pub mod resolve; // resolve.rt: each record worked out once
pub mod qualified; // qualified.rt: class names by their index

use crate::codes::code_at;
use crate::strings::size_at;
use foundation::{Context, Span, wide};
use names::name::{Name, Source};
use names::records::{RECORD_WORDS, part_of_pair};
use record_names::note::{Words, noted, noted_class};
use record_names::plain;

// The first index that record `at` may serve: the one past those of the record before it.
#[tactic(auto, unfolding(names::specs::told::Index::served_from))]
fn served_from(notes: &[u64], at: usize) -> u64
    requires { 3 * at ≤ length notes.now }
    ensures { result ≡ served_from notes.now at }
{
    if at == 0 {
        return 0;
    }
    notes[RECORD_WORDS * at - 1]
}

// Is it this record that serves an index?
fn serves(context: &Context<'_>, at: usize, index: u64) -> bool
    requires { 3 * context.now.tables.records ≤ length context.now.notes.now }
    ensures { result ≡ true → ServesTold context.now.notes.now context.now.tables.records at index }
{
    let notes = context.notes;
    at < context.tables.records
        && served_from(notes, at) <= index
        && index < served_from(notes, at + 1)
}

// The record that serves an index, if any does: by its code where that is right, of an index without one record 0, else the first that ends past it.
fn find_record(context: &Context<'_>, index: u32) -> Option<usize>
    ensures record { FindTold context.now.notes.now context.now.tables.records index result }
    ensures inside { IfSome result (λ at. 3 * at + 2 < length context.now.notes.now) }
{
    let notes = context.notes;
    let count = context.tables.records;
    if notes.len() / RECORD_WORDS < count {
        return None;
    }
    let wanted = u64::from(index);
    if served_from(notes, count) <= wanted {
        return None;
    }
    let code = code_at(notes, wide(index)).unwrap_or(0);
    if serves(context, code, wanted) {
        return Some(code);
    }
    let (records, _) = notes.as_chunks::<RECORD_WORDS>();
    let at = records[..count].partition_point(|words| words[2] <= wanted);
    if at == count {
        return None;
    }
    Some(at)
}

// A string of d2, by where its strings end.
// The ends stand beside the units, in a slice of their own, as the C interface lends both.
pub(crate) fn d2_extent(ends: &[u32], index: u32) -> Option<Span>
    ensures { (units : List ℕ) → ends_fit 0 ends.now (length units) ≡ true → get_elem? (strings_from 0 ends.now units) index ≡ extent_of units result }
{
    let i = wide(index);
    let end = wide(*ends.get(i)?);
    if i == 0 {
        return Some(Span { start: 0, end });
    }
    let start = wide(ends[i - 1]);
    Some(Span { start, end })
}

// A string of d2 as a name.
fn d2_name(context: &Context<'_>, index: u32) -> Option<Name>
    ensures { (payload units : List ℕ) → ends_fit 0 context.now.ends.now (length units) ≡ true → SizesOf units context.now.ends.now context.now.notes.now → d2_string (strings_from 0 context.now.ends.now units) index ≡ ok (name_text payload units result) }
{
    let part = d2_extent(context.ends, index)?;
    Some(Name {
        size: size_at(context.notes, index, part),
        ..plain(Source::D2, part)
    })
}

// Where the message of record `at` stands, by the index.
pub(crate) fn place_of(bytes: &[u8], notes: &[u64], at: usize) -> Option<Span>
    ensures { PlaceTold bytes.now notes.now at result }
{
    if notes.len() / RECORD_WORDS <= at {
        return None;
    }
    part_of_pair(notes[RECORD_WORDS * at], bytes.len())
}

// What is noted of the record that serves an index.
fn words_of(context: &Context<'_>, index: u32) -> Option<Words>
    ensures { NotedWords context.now.notes.now context.now.tables.records index result }
{
    let at = find_record(context, index)?;
    Some(Words {
        place: context.notes[RECORD_WORDS * at],
        steps: context.notes[RECORD_WORDS * at + 1],
    })
}

// The name that the record of an index builds, if it decides: it has a string or a predefined index, even if its text can't be built and there
// is no name.
#[inline(always)]
fn by_record(context: &Context<'_>, index: u32) -> Option<Option<Name>>
    ensures { DecidedTold context.now.notes.now context.now.tables.records index false result }
{
    noted(words_of(context, index)?)
}

// The class name that it builds, if it decides.
pub(crate) fn class_by_record(context: &Context<'_>, index: u32) -> Option<Option<Name>>
    ensures { DecidedTold context.now.notes.now context.now.tables.records index true result }
{
    noted_class(words_of(context, index)?)
}

// Does a record decide an index? If none does, the index is looked up among the strings of d2.
pub fn is_decided(context: &Context<'_>, index: u32) -> bool
    ensures { (records : List Record) → NotesOf context.now.payload.now context.now.notes.now context.now.tables.records records → result ≡ decided_in records index }
{
    by_record(context, index).is_some()
}

// The string with an index, of the name table whose index stands in the notes.
pub fn string(context: &Context<'_>, index: u32) -> Option<Name>
    ensures { (units : List ℕ) (records : List Record) → ends_fit 0 context.now.ends.now (length units) ≡ true → SizesOf units context.now.ends.now context.now.notes.now → NotesOf context.now.payload.now context.now.notes.now context.now.tables.records records → string (record { records = records; d2 = d2_string (strings_from 0 context.now.ends.now units) }) index ≡ ok (name_text context.now.payload.now units result) }
{
    match by_record(context, index) {
        Some(name) => name,
        None => d2_name(context, index),
    }
}
