// The type table of a class or package: its entries cut, and noted where they stand among the decoded bytes. The definition:
// specs/Types.antt, `type_table_in`; what the answers tell: specs/told/TableTold.antt.
ghost use Rattle.std.specs.Prelude.{◌≡◌, ◌^◌, ◌≤◌, ◌<◌, length, set, drop};
ghost use Rattle.foundation.specs.Results.{ok, ◌from◌};
ghost use Rattle.wire.specs.Wire.{cut, Message};
ghost use Rattle.wire.specs.told.WireTold.{rest_of};
ghost use Rattle.characters.specs.told.Places.{part_from};
ghost use Rattle.names.specs.told.Index.{pair_places};
ghost use Rattle.schema.specs.told.TableTold.{EntriesTold, TableTold, TypeIndexTold};

use fields::{TYPE_TABLE_FIRST_NULLABLE, TYPE_TABLE_TYPE};
use foundation::{Located, Span};
use messages::{bodies_from, check, index, message};
use names::records::{IndexError, place_pair};

// How many entries the type table has, and from which of them on all are nullable, if any is.
#[derive(Clone, Copy)]
pub struct TypeIndex {
    pub count: usize,
    pub first: Option<u32>,
}

fn put_entry(notes: &mut [u64], count: usize, start: u32, end: u32)
    requires { count < length notes.old }
    ensures { notes.new ≡ set notes.old count (pair_places start end) }
{
    notes[count] = place_pair(start, end);
}

// Cuts the entries of the type table in `bytes` from `at` on, and notes for each where it stands.
fn note_entries(bytes: &[u8], at: usize, notes: &mut [u64]) -> Result<usize, IndexError>
    requires { length bytes.now < 2 ^ 32 }
    ensures { (m : Message) → cut (rest_of 0 bytes.now at) ≡ ok m → EntriesTold bytes.now m notes.new result }
{
    // Counted by hand, and not by `enumerate`: the count is the answer after the last entry too.
    let mut count: usize = 0;
    let table = Located::whole(bytes);
    for entry in bodies_from(table, TYPE_TABLE_TYPE, at) {
        check(table.part(entry))?;
        if notes.len() <= count {
            return Err(IndexError::NoRoom);
        }
        // `as`: `index_types` has seen that the payload's places fit 32 bits.
        put_entry(notes, count, entry.start as u32, entry.end as u32);
        count += 1;
    }
    Ok(count)
}

// The type table in a part of the decoded bytes.
fn note_table(payload: &[u8], table: Span, notes: &mut [u64]) -> Result<TypeIndex, IndexError>
    requires { (table.start ≤ table.end) × (table.end ≤ length payload.now) × (length payload.now < 2 ^ 32) }
    ensures { (m : Message) → cut (◌from◌ table.start (part_from table.start table.end payload.now)) ≡ ok m → TableTold payload.now m notes.new result }
{
    let count = note_entries(&payload[..table.end], table.start, notes)?;
    let first = index(Located::of(payload, table), TYPE_TABLE_FIRST_NULLABLE);
    Ok(TypeIndex { count, first })
}

// The type table in a field of the message that is the decoded bytes from `at` on.
pub fn index_types(
    payload: &[u8],
    at: usize,
    number: u32,
    notes: &mut [u64],
) -> Result<TypeIndex, IndexError>
    ensures { (m : Message) → cut (◌from◌ at (drop at payload.now)) ≡ ok m → TypeIndexTold payload.now at number m notes.new result }
{
    if payload.len() < at {
        return Err(IndexError::NoRoom);
    }
    if 4294967295 < payload.len() {
        return Err(IndexError::NoRoom);
    }
    let Some(table) = message(Located::rest(payload, at), number)? else {
        return Ok(TypeIndex {
            count: 0,
            first: None,
        });
    };
    note_table(payload, table.moved(at), notes)
}
