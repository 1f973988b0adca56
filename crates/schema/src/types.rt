// Small readers of types: an entry of the type table. Types are walked and written above, in `type_references`. What they tell:
// specs/told/TypesTold.antt.
ghost use Rattle.std.specs.Prelude.{◌≡◌};
ghost use Rattle.schema.specs.told.SchemaTold.{entry_nullable, entries_in};
ghost use Rattle.schema.specs.told.TypesTold.{EntryTold};

use foundation::{Context, Span, Tables, wide};
use names::records::{RECORD_WORDS, part_of_pair};

// Is an entry of the type table nullable by its place?
pub fn is_nullable(tables: Tables, index: u32) -> bool
    ensures { result ≡ entry_nullable tables.first_nullable index }
{
    tables.first_nullable.is_some_and(|first| first <= index)
}

// Where an entry of the type table stands, if there is one at the index.
pub fn entry_at(context: &Context<'_>, index: u32) -> Option<Span>
    ensures { EntryTold context.now.payload.now (entries_in context.now.tables context.now.notes.now) context.now.tables.types index result }
{
    let tables = context.tables;
    let notes = context.notes;
    let i = wide(index);
    if tables.types <= i {
        return None;
    }
    let records = tables.records;
    if notes.len() / RECORD_WORDS < records {
        return None;
    }
    if notes.len() - RECORD_WORDS * records <= i {
        return None;
    }
    let place = notes[RECORD_WORDS * records + i];
    part_of_pair(place, context.payload.len())
}
