// The decoded bytes opened, their type table joined first: what is told of the bytes, and of what they become; how the answer tells it:
// specs/told/OpenedTold.antt. And the same bytes as entries of the type table are read where no look-up is left: schema's specs/told/Alike.antt, `DeepestOf`.
ghost use Rattle.std.specs.Prelude.{◌≤◌, length};
ghost use Rattle.schema.specs.told.SchemaTold.{entries_in};
ghost use Rattle.schema.specs.told.Alike.{DeepestOf};
ghost use Rattle.declarations.specs.told.PayloadTold.{LentTold};
ghost use Rattle.passes.specs.told.OpenedTold.{BytesJoined};

use declarations::payload::{Opened, open_lent};
use foundation::{Context, Tables};
use inputs::Units;
use joined_types::{join_body, join_entries};
use messages::reader::split_payload;
use names::records::IndexError;

// The decoded bytes opened. Where they have a type table, the fields of its entries that no reading asks for are joined, and they are opened once
// more: an entry is read each time that it is entered, and then costs what it keeps. Bytes without a type table, as most have, are opened once.
// Callers show that d2 is within its limit, here and in string_marks: from their `InLimits`.
pub fn open_joined(
    bytes: &mut [u8],
    units: &Units<'_>,
    notes: &mut [u64],
) -> Result<Opened, IndexError>
    requires { length units.now.d2.now ≤ 32768 }
    ensures opened { LentTold bytes.new units.now.d2.now units.now.ends.now notes.new result }
    ensures joined { BytesJoined bytes.old bytes.new }
{
    let opened = open_lent(bytes, units, notes)?;
    if opened.tables.types == 0 {
        return Ok(opened);
    }
    let Ok(parts) = split_payload(bytes) else {
        return Ok(opened);
    };
    join_body(&mut bytes[parts.rest..]);
    open_lent(bytes, units, notes)
}

// The decoded bytes as the entries of their type table are read where no look-up is left: a copy of them in `spare`, with the entries joined so. Without
// a type table the decoded bytes are such themselves, and where `spare` is too short they stand for the copy, which is only slower. Joining asks for no
// name, so the `Context` that it is lent has no d2.
pub fn deepest_of<'a>(
    bytes: &'a [u8],
    notes: &'a [u64],
    tables: Tables,
    spare: &'a mut [u8],
) -> &'a [u8]
    ensures { DeepestOf bytes.now result.now (entries_in tables notes.now) tables.types }
{
    let size = bytes.len();
    if tables.types == 0 || spare.len() < size {
        return bytes;
    }
    let deepest = &mut spare[..size];
    sheet::put_all(deepest, 0, bytes);
    let context = Context {
        payload: bytes,
        deepest: bytes,
        d2: &[],
        ends: &[],
        notes,
        tables,
    };
    join_entries(&context, deepest);
    deepest
}
