// The decoded bytes opened: a length-delimited name table, its records noted, then the body and its type table. The definition:
// specs/Payload.antt, `payload`; what the answers tell: specs/told/PayloadTold.antt.
ghost use Rattle.std.specs.Prelude.{◌*◌, ◌≤◌, ◌<◌, length, Ok};
ghost use Rattle.foundation.specs.Results.{◌from◌};
ghost use Rattle.wire.specs.Wire.{read_delimited};
ghost use Rattle.messages.specs.told.Reader.{SplitTold};
ghost use Rattle.declarations.specs.told.PayloadTold.{BodyOpened, NotedOpened, OpenedTold, LentTold};

use fields::CLASS_TYPE_TABLE;
use foundation::{Located, Tables};
use inputs::Units;
use lookup::codes::{codes_from, note_codes};
use lookup::resolve::resolve;
use lookup::strings::note_strings;
use messages::check;
use messages::reader::{Parts, split_payload};
use names::records::{IndexError, RECORD_WORDS, index_records};
use schema::table::index_types;

// The body begins at a place of the decoded bytes.
#[derive(Clone, Copy)]
pub struct Opened {
    pub at: usize,
    pub tables: Tables,
}

// The body from `at` on is cut, and where the entries of its type table stand is noted.
// The bytes and what is lent for notes go apart, here and below: a struct of both would be taken apart at each call of `names`, `lookup` and `schema`.
// That places fit 16 bits is required here and below, and is no type's fact: `open_payload` has tested it once.
fn open_body(
    bytes: &[u8],
    at: usize,
    records: usize,
    entries: &mut [u64],
) -> Result<Opened, IndexError>
    requires { (at ≤ length bytes.now) × (length bytes.now < 65536) }
    ensures { BodyOpened bytes.now at records entries.new result }
{
    check(Located::rest(bytes, at))?;
    let types = index_types(bytes, at, CLASS_TYPE_TABLE, entries)?;
    Ok(Opened {
        at,
        tables: Tables {
            records,
            types: types.count,
            first_nullable: types.first,
        },
    })
}

// The records are noted: each is worked out once, and the body from `rest` on opened, with its notes after theirs.
fn open_noted(
    bytes: &[u8],
    rest: usize,
    count: usize,
    notes: &mut [u64],
) -> Result<Opened, IndexError>
    requires { (3 * count ≤ length notes.old) × (rest ≤ length bytes.now) × (length bytes.now < 65536) }
    ensures { NotedOpened bytes.now rest count notes.old notes.new result }
{
    resolve(bytes, notes, count);
    open_body(bytes, rest, count, &mut notes[RECORD_WORDS * count..])
}

// The name table of a payload's parts is cut and its records noted; then the body after it.
fn open_table(bytes: &[u8], parts: Parts, notes: &mut [u64]) -> Result<Opened, IndexError>
    requires { SplitTold bytes.now (read_delimited (◌from◌ 0 bytes.now)) (Ok parts) × (length bytes.now < 65536) }
    ensures { OpenedTold bytes.now notes.new result }
{
    let table = parts.table;
    check(Located::of(bytes, table))?;
    let count = index_records(&bytes[..table.end], table.start, notes)?;
    open_noted(bytes, parts.rest, count, notes)
}

// The decoded bytes opened, their tables noted in what is lent.
fn open_payload(bytes: &[u8], notes: &mut [u64]) -> Result<Opened, IndexError>
    ensures { OpenedTold bytes.now notes.new result }
{
    if 65535 < bytes.len() {
        return Err(IndexError::NoRoom); // a place in a note has 16 bits
    }
    let parts = split_payload(bytes)?;
    open_table(bytes, parts, notes)
}

// `open_payload`, and after both tables' notes a code for each of the first indices and the sizes of d2's long strings. It doesn't look at d1.
// Callers show that d2 is within its limit: passes from its `InLimits`.
pub fn open_lent(bytes: &[u8], units: &Units<'_>, notes: &mut [u64]) -> Result<Opened, IndexError>
    requires { length units.now.d2.now ≤ 32768 }
    ensures { LentTold bytes.now units.now.d2.now units.now.ends.now notes.new result }
{
    let limit = codes_from(notes.len());
    let opened = open_payload(bytes, &mut notes[..limit])?;
    note_codes(notes, opened.tables.records);
    note_strings(units.d2, units.ends, notes);
    Ok(opened)
}
