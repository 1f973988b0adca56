// Names looked up: of a note, the name table, d2's units and where its strings end, all in hex, the index, and s for a string or q for a class name, the
// note and the name's text in UTF-8, in hex.
use crate::hex::{number, read_bytes, read_places, read_units, write_bytes};
use foundation::{Context, Located, Tables};
use names::encoded::Encoded;
use names::name::{Change, Name, PREDEFINED, Source, part_of};
use std::io;

fn print_character(rt: &impl Print, code: u32) -> io::Result<()> {
    let mut area = [0u8; 4];
    let size = characters::put_character(&mut area, 0, code);
    write_bytes(rt, &area[..size.min(4)])
}

// A loop by hand: `Encoded` tells the character at a place, and has no iterator over them.
fn print_text<E: Encoded>(rt: &impl Print, text: E, change: Change) -> io::Result<()> {
    let mut at = 0;
    while let Some(character) = text.character_at(at) {
        print_character(rt, names::name::character_of(change, character.value))?;
        at = character.next;
    }
    Ok(())
}

fn print_name(rt: &impl Print, context: &Context<'_>, name: Option<Name>) -> io::Result<()> {
    let Some(name) = name else {
        return print!(rt; "absent");
    };
    let change = names::name::change_of(Some(name), false);
    match name.source {
        Source::D2 => print_text(rt, part_of(context.d2, name.part), change),
        source => {
            let s = names::name::base_text(context.payload, &PREDEFINED, source, name.part);
            print_text(rt, s, change)
        }
    }
}

// The name with this index: of a class, or a string.
fn look_up(
    rt: &impl Print,
    table: &[u8],
    units: &[u16],
    ends: &[u32],
    index: u32,
    of_class: bool,
) -> io::Result<()> {
    if messages::check(Located::whole(table)).is_err() {
        return print!(rt; "refused");
    }
    let mut notes = [0u64; 48];
    let Ok(count) = names::records::index_records(table, 0, &mut notes) else {
        return print!(rt; "refused");
    };
    lookup::resolve::resolve(table, &mut notes, count);
    let context = Context {
        payload: table,
        deepest: table,
        d2: units,
        ends,
        notes: &notes,
        tables: Tables {
            records: count,
            types: 0,
            first_nullable: None,
        },
    };
    let name = if of_class {
        lookup::qualified::qualified_name(&context, index)
    } else {
        lookup::string(&context, index)
    };
    print_name(rt, &context, name)
}

// A case: its note, and what it looks up. A part that isn't there is empty.
pub(crate) fn show(rt: &impl Print, case: &[u8]) -> io::Result<()> {
    let mut parts = case.split(|byte| *byte == b'|');
    rt.write_all(parts.next().unwrap_or(&[]))?;
    print!(rt; ": ")?;
    let mut table = [0u8; 64];
    let mut units = [0u16; 16];
    let mut ends = [0u32; 8];
    let size = read_bytes(parts.next().unwrap_or(&[]), &mut table);
    let unit_count = read_units(parts.next().unwrap_or(&[]), &mut units);
    let end_count = read_places(parts.next().unwrap_or(&[]), &mut ends);
    let index = number(parts.next().unwrap_or(&[]));
    let kind = parts.next().unwrap_or(&[]);
    look_up(
        rt,
        &table[..size],
        &units[..unit_count],
        &ends[..end_count],
        index,
        kind.starts_with(b"q"),
    )?;
    println!(rt)
}
