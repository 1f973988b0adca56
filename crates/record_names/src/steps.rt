// The name that a record builds: a part of what its text is made of, and what is done to its characters. The definitions:
// names' specs/Records.antt; how the answers tell them: specs/told/Steps.antt.
ghost use Rattle.std.specs.Prelude.{◌||◌, ◌≡◌, List, ℕ};
ghost use Rattle.messages.specs.told.Asked.{piece_told, index_told};
ghost use Rattle.foundation.specs.Choices.{is_some};
ghost use Rattle.characters.specs.Characters.{is_scalar};
ghost use Rattle.characters.specs.Splits.{substring_of};
ghost use Rattle.names.specs.Records.{stepped, without_ends};
ghost use Rattle.names.specs.told.RecordTold.{both_numbers};
ghost use Rattle.names.specs.told.Name.{dropped};
ghost use Rattle.record_names.specs.told.Steps.{SubstringTold, PieceFits, BaseTold, StepTold, LeftTold, StepsTold, BuiltTold};

use crate::base::{Base, bytes_of};
use crate::ends::without_ends;
use crate::plain;
use characters::find_place;
use foundation::{Span, wide};
use messages::repeated::Two;
use names::name::{Name, Operation, Source, predefined};
use names::records::Record;

// The part of some bytes that gives the substring of their text by byte places.
fn substring(s: &[u8], first: usize, last: usize) -> Option<Span>
    ensures { SubstringTold s.now first last result }
{
    if last < first {
        return None;
    }
    let start = find_place(s, first)?;
    let size = find_place(&s[start..], last - first)?;
    Some(Span {
        start,
        end: start + size,
    })
}

// What the text of a record is made of whose message begins at `from`.
fn base_of(string: Option<Span>, index: Option<u32>, from: usize) -> Option<Base>
    requires { PieceFits from string }
    ensures { BaseTold from string index result }
{
    if let Some(part) = string {
        return Some(Base {
            source: Source::Payload,
            part: part.moved(from),
        });
    }
    Some(Base {
        source: Source::Predefined,
        part: predefined(index?)?,
    })
}

// The substring from byte place `first` to `last` of a part's text.
fn substring_part(payload: &[u8], base: Base, first: u32, last: u32) -> Option<Base>
    ensures { StepTold payload.now (substring_of first last) base result }
{
    let part = substring(bytes_of(payload, base), wide(first), wide(last))?;
    Some(Base {
        source: base.source,
        part: part.moved(base.part.start),
    })
}

// Is there a character with this number?
fn is_scalar(code: u32) -> bool
    ensures { result ≡ is_scalar code }
{
    char::from_u32(code).is_some()
}

// A part with the replacement of a record, and with what its operation turns into dots; nothing if either number is no character.
fn with_steps(base: Base, replaced: Two, operation: Operation) -> Option<Name>
    ensures { StepsTold base (both_numbers replaced) operation result }
{
    let name = Name {
        operation,
        ..plain(base.source, base.part)
    };
    let Two::Both { first, second } = replaced else {
        return Some(name);
    };
    if is_scalar(first) && is_scalar(second) {
        return Some(Name {
            from: first,
            to: second,
            ..name
        });
    }
    None
}

// The part that a record's substring leaves of what its text is made of.
fn substring_of(payload: &[u8], base: Base, numbers: Two) -> Option<Base>
    ensures { StepTold payload.now (stepped substring_of (both_numbers numbers)) base result }
{
    match numbers {
        Two::Both { first, second } => substring_part(payload, base, first, second),
        _ => Some(base),
    }
}

// The part of a part that is left of its text without the first and the last character, if it has two or more.
fn inner_part(payload: &[u8], base: Base) -> Base
    ensures { LeftTold payload.now base without_ends result }
{
    let Some(part) = without_ends(bytes_of(payload, base)) else {
        return base;
    };
    Base {
        source: base.source,
        part: part.moved(base.part.start),
    }
}

// The part that a record's operation leaves: operation 2 drops the first and the last character. It is done when the record is worked out, so
// that a look-up doesn't walk to the last character. A replacement neither adds nor drops a character, so this can be done before it.
fn left_part(payload: &[u8], base: Base, operation: Operation) -> Base
    ensures { LeftTold payload.now base (dropped operation) result }
{
    match operation {
        Operation::DescToClassId => inner_part(payload, base),
        _ => base,
    }
}

// The name that a record builds whose message begins at `from`, if its text can be built. Only the crate's root calls it, with a record that
// it has read there: so the places of its string fit 64 bits.
pub(crate) fn record_name(payload: &[u8], from: usize, read: Record) -> Option<Name>
    requires { PieceFits from read.string }
    ensures { BuiltTold payload.now from read result }
{
    let base = base_of(read.string, read.predefined, from)?;
    let part = substring_of(payload, base, read.substring)?;
    let operation = Operation::of(read.operation);
    let left = left_part(payload, part, operation);
    with_steps(left, read.replaced, operation)
}

// A record with a string or a predefined index decides its indices, even if its text can't be built.
pub(crate) fn decides(string: Option<Span>, index: Option<u32>) -> bool
    ensures { (base : ℕ) (s : List ℕ) → result ≡ is_some (piece_told base s string) || is_some (index_told index) }
{
    string.is_some() || index.is_some()
}
