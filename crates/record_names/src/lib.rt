// What a record of the name table builds: its name and its class name, with the size of the text, in two words. The definitions of records and
// names: names' specs/Records.antt, specs/Names.antt; what the answers tell: specs/told/Named.antt.
#![tactic(auto)]

ghost use Rattle.std.specs.Prelude.{◌≡◌, ◌≤◌, ◌<◌, length};
ghost use Rattle.names.specs.told.Name.{plain};
ghost use Rattle.record_names.specs.told.Named.{PredefinedTold, NamedTold, RecordWords};

mod base; // base.rt: what the text of a record is made of
mod class_name; // class_name.rt: a record's class name
mod ends; // ends.rt: the first and the last character of a text
pub mod note; // note.rt: what a record builds, in two words
mod sized; // sized.rt: a record's name with its size
mod steps; // steps.rt: the name that a record builds

use crate::note::Words;
use crate::sized::words_for;
use crate::steps::{decides, record_name};
use fields::{RECORD_OPERATION, RECORD_PREDEFINED_INDEX, RECORD_RANGE};
use foundation::{Located, Span};
use names::name::{Name, Operation, Source, predefined};
use names::records::record_in;

// A part of a source as a name, with no step.
pub fn plain(source: Source, part: Span) -> Name
    ensures { result ≡ plain source part }
{
    Name {
        source,
        part,
        from: 0,
        to: 0,
        operation: Operation::Nothing,
        qualified: false,
        size: 0,
    }
}

// What the record builds whose message is a part of the bytes, if it decides: a name, or none if its text can't be built.
// That the part lies in the bytes is required here and below, and is no fact of `Span`: the part of a name may end past its source.
fn read_record(bytes: &[u8], part: Span) -> Option<Option<Name>>
    requires { (part.start ≤ part.end) × (part.end ≤ length bytes.now) }
    ensures { NamedTold bytes.now part.start part.end result }
{
    let read = record_in(Located::of(bytes, part));
    if decides(read.string, read.predefined) {
        return Some(record_name(bytes, part.start, read));
    }
    None
}

// A predefined string as a name.
fn listed_name(index: u32) -> Option<Name>
    ensures { PredefinedTold index result }
{
    Some(plain(Source::Predefined, predefined(index)?))
}

// The tags of a record's fields 1 to 3, which are varints.
const RANGE_TAG: u32 = RECORD_RANGE * 8;

const PREDEFINED_INDEX_TAG: u32 = RECORD_PREDEFINED_INDEX * 8;

const OPERATION_TAG: u32 = RECORD_OPERATION * 8;

// What the record of a part builds, as in `read_record`. Most records have no field, or one of two bytes, its tag and its number: these are
// told without a walk.
fn record_at(bytes: &[u8], part: Span) -> Option<Option<Name>>
    requires { (part.start ≤ part.end) × (part.end ≤ length bytes.now) }
    ensures { NamedTold bytes.now part.start part.end result }
{
    let start = part.start;
    let size = part.end - start;
    if size == 0 {
        return None;
    }
    if size == 2 && bytes[start + 1] < 128 {
        match u32::from(bytes[start]) {
            PREDEFINED_INDEX_TAG => return Some(listed_name(u32::from(bytes[start + 1]))),
            RANGE_TAG | OPERATION_TAG => return None,
            _ => {}
        }
    }
    read_record(bytes, part)
}

// What is noted of the record whose message is a part of the bytes: its name and its class name, in two words.
// Callers show that its message stands in the payload, and that places of the payload fit 16 bits: lookup::resolve tests both.
// That they fit is required, here and in sized.rt, and is no type's fact: a type of such bytes would be made of the same ones at each record.
pub fn record_words(bytes: &[u8], part: Span) -> Words
    requires { (part.start ≤ part.end) × (part.end ≤ length bytes.now) × (length bytes.now < 65536) }
    ensures { RecordWords bytes.now part.start part.end result }
{
    words_for(bytes, record_at(bytes, part))
}
