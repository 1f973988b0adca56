// Class names: without a leading L and a trailing ; if both are there, / and $ turned into dots. The definition: names' specs/Names.antt,
// `qualified_name`; how the answers tell it: specs/told/Qualified.antt.
ghost use Rattle.std.specs.Prelude.{◌≡◌, true, List, ◌≤◌, length};
ghost use Rattle.foundation.specs.Results.{ok};
ghost use Rattle.names.specs.Records.{Record};
ghost use Rattle.names.specs.Names.{strings_from, ends_fit, d2_string, qualified_name};
ghost use Rattle.names.specs.told.Name.{name_text};
ghost use Rattle.lookup.specs.told.Lookups.{NotesOf};
ghost use Rattle.lookup.specs.told.Qualified.{ClippedTold, WrappedTold, units_name, QualifiedUnits};
ghost use Rattle.lookup.specs.told.Strings.{SizesOf};

use crate::strings::size_at;
use crate::{class_by_record, d2_extent};
use foundation::{Context, Span};
use names::name::{Name, Source};
use record_names::note::class_size;
use record_names::plain;

fn clipped(units: &[u16], end: usize) -> usize
    ensures { ClippedTold units.now end result }
{
    end.min(units.len())
}

// Does a part of the units begin with L and end with ;?
fn is_wrapped(units: &[u16], part: Span) -> bool
    requires { part.end ≤ length units.now }
    ensures { WrappedTold units.now part.start part.end result }
{
    let Span { start, end } = part;
    if start < end && start < end - 1 && units[start] == 0x4c {
        return units[end - 1] == 0x3b;
    }
    false
}

// A class name made of units of d2.
fn units_name(part: Span, size: usize) -> Name
    ensures { result ≡ units_name part size }
{
    Name {
        qualified: true,
        size,
        ..plain(Source::D2, part)
    }
}

// The class name of a string of d2.
fn qualified_units(context: &Context<'_>, index: u32) -> Option<Name>
    ensures { SizesOf context.now.d2.now context.now.ends.now context.now.notes.now → QualifiedUnits context.now.d2.now context.now.ends.now index result }
{
    let part = d2_extent(context.ends, index)?;
    let whole = Span {
        end: clipped(context.d2, part.end),
        ..part
    };
    let size = size_at(context.notes, index, part);
    if is_wrapped(context.d2, whole) {
        let inner = Span {
            start: whole.start + 1,
            end: whole.end - 1,
        };
        return Some(units_name(inner, class_size(size, whole.start, inner.start)));
    }
    Some(units_name(whole, size))
}

// The class name with an index. It has the shape of `string`, but calls two other functions, and other laws speak of their answers: one function
// for both would be no plainer.
pub fn qualified_name(context: &Context<'_>, index: u32) -> Option<Name>
    ensures { (records : List Record) → ends_fit 0 context.now.ends.now (length context.now.d2.now) ≡ true → SizesOf context.now.d2.now context.now.ends.now context.now.notes.now → NotesOf context.now.payload.now context.now.notes.now context.now.tables.records records → qualified_name (record { records = records; d2 = d2_string (strings_from 0 context.now.ends.now context.now.d2.now) }) index ≡ ok (name_text context.now.payload.now context.now.d2.now result) }
{
    match class_by_record(context, index) {
        Some(name) => name,
        None => qualified_units(context, index),
    }
}
