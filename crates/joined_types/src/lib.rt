// Entries of the type table in which the fields that no reading asks for are joined into one: entering an entry then costs what it keeps. No message
// changes its length or its place. What is kept: schema's specs/told/Alike.antt; what joining a run of fields changes: specs/told/Runs.antt; what
// becomes of a field: specs/told/Fates.antt.
#![tactic(auto)]

ghost use Rattle.std.specs.Prelude.{◌≡◌, ◌≤◌, ◌||◌, eqb, length};
ghost use Rattle.fields.specs.Fields.{Type-nullable, Type-class_name, Type-Argument-projection, Type-Argument-type, Type-Argument-type_id, TypeTable-type};
ghost use Rattle.wire.specs.told.WireTold.{Inside};
ghost use Rattle.messages.specs.told.Asked.{piece_if};
ghost use Rattle.schema.specs.told.Alike.{SameType, SameArgument, SameTable, JoinedAs, DeepestOf};
ghost use Rattle.schema.specs.told.SchemaTold.{entries_in};
ghost use Rattle.joined_types.specs.told.Runs.{RunJoined};
ghost use Rattle.joined_types.specs.told.Fates.{joined_levels, NoTypeTold, DroppedTold, TypeFate, ArgumentFate, EntriesCounted, BodyJoined};

use fields::{
    CLASS_TYPE_TABLE, TYPE_ARGUMENT, TYPE_ARGUMENT_PROJECTION, TYPE_ARGUMENT_TYPE,
    TYPE_ARGUMENT_TYPE_ID, TYPE_CLASS_NAME, TYPE_NULLABLE, TYPE_TABLE_TYPE,
};
use foundation::{Context, Located, Span, wide};
use messages::{bodies_from, check};
use schema::argument::{ArgumentHead, argument_head};
use schema::types::entry_at;
use wire::{Field, field_at};

// How many types inside one another are joined. One that is deeper is entered only after these, and each of them is one of the types that may be entered.
const LEVELS: usize = 128;

// The fields from a place to another become one that no reading asks for: number 15, length-delimited, with a length of three bytes. It is written over
// the first four of their bytes, and the others are its body. Fewer than five bytes stay, and those that need a longer length.
fn join(s: &mut [u8], from: usize, to: usize)
    requires { (from ≤ to) × (to ≤ length s.old) }
    ensures { RunJoined s.old s.new from to }
{
    if to - from < 5 {
        return;
    }
    let size = to - from - 4;
    if 2097152 <= size {
        return;
    }
    s[from] = 122;
    s[from + 1] = (size % 128 + 128) as u8;
    s[from + 2] = (size / 128 % 128 + 128) as u8;
    s[from + 3] = (size / 16384) as u8;
}

// Is an argument, if it is cut, dropped wherever it is read? It is no star, has no type inline, and no index of one of so many entries.
fn has_no_type(argument: Located<'_>, types: usize) -> bool
    ensures { NoTypeTold types argument.entry.base argument.entry.bytes.now result }
{
    match argument_head(argument) {
        ArgumentHead::ByIndex {
            projection: _,
            index,
        } => types <= wide(index),
        ArgumentHead::Nothing => true,
        _ => false,
    }
}

// Is the argument in a message cut, and dropped wherever it is read?
fn is_dropped(s: &[u8], types: usize) -> bool
    ensures { DroppedTold types s.now result }
{
    let argument = Located::whole(s);
    has_no_type(argument, types) && check(argument).is_ok()
}

// What becomes of a field: it is joined with those beside it, it stays as it is, or it stays and the message in it is joined.
#[derive(Clone, Copy)]
enum Fate {
    Joined,
    Kept,
    Inner(Span),
}

// The fields of a type's message that were seen before a place: a class name, a flag.
#[derive(Clone, Copy)]
struct TypeSeen {
    named: bool,
    flagged: bool,
}

impl TypeSeen {
    // What becomes of a field after these, in a message with the bytes `s`.
    fn fate(self, s: &[u8], field: Field, types: usize) -> Fate
        requires { Inside s.now field.value }
        ensures { TypeFate types s.now self field result }
    {
        if field.number == TYPE_ARGUMENT {
            let Some(body) = field.value.bytes() else {
                return Fate::Joined;
            };
            if is_dropped(&s[body.start..body.end], types) {
                return Fate::Joined;
            }
            return Fate::Inner(body);
        }
        if field.number == TYPE_CLASS_NAME && !self.named {
            return Fate::Kept;
        }
        if field.number == TYPE_NULLABLE && !self.flagged {
            return Fate::Kept;
        }
        Fate::Joined
    }

    // What was seen, with a field of this number after it.
    fn after(self, number: u32) -> TypeSeen
        ensures { (result.named ≡ self.named || eqb number Type-class_name) × (result.flagged ≡ self.flagged || eqb number Type-nullable) }
    {
        TypeSeen {
            named: self.named || number == TYPE_CLASS_NAME,
            flagged: self.flagged || number == TYPE_NULLABLE,
        }
    }
}

// The fields of an argument's message that were seen before a place: a projection, a type, an index.
#[derive(Clone, Copy)]
struct ArgumentSeen {
    projected: bool,
    inlined: bool,
    indexed: bool,
}

impl ArgumentSeen {
    // What becomes of a field after these.
    fn fate(self, field: Field) -> Fate
        ensures { ArgumentFate self field result }
    {
        if field.number == TYPE_ARGUMENT_TYPE && !self.inlined {
            return match field.value.bytes() {
                Some(body) => Fate::Inner(body),
                None => Fate::Kept,
            };
        }
        if field.number == TYPE_ARGUMENT_PROJECTION && !self.projected {
            return Fate::Kept;
        }
        if field.number == TYPE_ARGUMENT_TYPE_ID && !self.indexed {
            return Fate::Kept;
        }
        Fate::Joined
    }

    // What was seen, with a field of this number after it.
    fn after(self, number: u32) -> ArgumentSeen
        ensures { (result.projected ≡ self.projected || eqb number Type-Argument-projection) × (result.inlined ≡ self.inlined || eqb number Type-Argument-type) × (result.indexed ≡ self.indexed || eqb number Type-Argument-type_id) }
    {
        ArgumentSeen {
            projected: self.projected || number == TYPE_ARGUMENT_PROJECTION,
            inlined: self.inlined || number == TYPE_ARGUMENT_TYPE,
            indexed: self.indexed || number == TYPE_ARGUMENT_TYPE_ID,
        }
    }
}

// The argument in a message, and its type inline down to so many levels. Fields are joined in runs: one is joined when a field comes that stays.
// A loop by a place, here and below: `Fields` of wire goes over bytes that stay, and these are written on the way.
// This and `join_type` are of one shape: one loop for both would take a trait of what was seen, with the law of each, which is longer.
#[cycle(join_argument_join_type)]
fn join_argument(s: &mut [u8], types: usize, levels: usize)
    ensures { JoinedAs (SameArgument types levels) s.old s.new }
{
    let mut seen = ArgumentSeen {
        projected: false,
        inlined: false,
        indexed: false,
    };
    let mut run = 0;
    let mut at = 0;
    while let Ok(read) = field_at(Located::whole(s), at) {
        let here = at;
        at = read.next;
        match seen.fate(read.value) {
            Fate::Joined => {}
            Fate::Kept => {
                join(s, run, here);
                seen = seen.after(read.value.number);
                run = at;
            }
            Fate::Inner(body) => {
                join(s, run, here);
                join_type(&mut s[body.start..body.end], types, levels);
                seen = seen.after(read.value.number);
                run = at;
            }
        }
    }
    join(s, run, at);
}

// The type in a message, and those in it down to so many levels.
#[cycle(join_argument_join_type)]
fn join_type(s: &mut [u8], types: usize, levels: usize)
    ensures { JoinedAs (SameType types levels) s.old s.new }
{
    if levels == 0 {
        return;
    }
    let mut seen = TypeSeen {
        named: false,
        flagged: false,
    };
    let mut run = 0;
    let mut at = 0;
    while let Ok(read) = field_at(Located::whole(s), at) {
        let here = at;
        at = read.next;
        match seen.fate(s, read.value, types) {
            Fate::Joined => {}
            Fate::Kept => {
                join(s, run, here);
                seen = seen.after(read.value.number);
                run = at;
            }
            Fate::Inner(body) => {
                join(s, run, here);
                join_argument(&mut s[body.start..body.end], types, levels - 1);
                run = at;
            }
        }
    }
    join(s, run, at);
}

// How many entries the type table in a message has.
fn count_entries(s: &[u8]) -> usize
    ensures { EntriesCounted s.now result }
{
    // Counted by hand: std's law of `count` would want one more of what `Bodies` gives.
    let mut count: usize = 0;
    for _ in bodies_from(Located::whole(s), TYPE_TABLE_TYPE, 0) {
        count += 1;
    }
    count
}

// The body of an entry of a type table, if a field holds one.
fn entry_of(field: Field) -> Option<Span>
    ensures { result ≡ piece_if TypeTable-type field.number field.value }
{
    if field.number != TYPE_TABLE_TYPE {
        return None;
    }
    field.value.bytes()
}

// The type table in a message: each entry is joined.
fn join_table(s: &mut [u8])
    ensures { JoinedAs (SameTable joined_levels) s.old s.new }
{
    let types = count_entries(s);
    let mut at = 0;
    while let Ok(read) = field_at(Located::whole(s), at) {
        at = read.next;
        if let Some(entry) = entry_of(read.value) {
            join_type(&mut s[entry.start..entry.end], types, LEVELS);
        }
    }
}

// The type table in the message of a class or package is joined. A message that has none, or can't be read so far, stays as it is.
pub fn join_body(s: &mut [u8])
    ensures { BodyJoined s.old s.new }
{
    let mut at = 0;
    while let Ok(read) = field_at(Located::whole(s), at) {
        if read.value.number == CLASS_TYPE_TABLE {
            if let Some(table) = read.value.value.bytes() {
                join_table(&mut s[table.start..table.end]);
            }
            return;
        }
        at = read.next;
    }
}

// In a copy of the decoded bytes, the entries of the type table are joined as they are read where no look-up is left: there each argument by its index
// is dropped. Entries are noted in the order in which they stand. Where one is noted elsewhere, the copy is the decoded bytes themselves again.
// Callers show that it is a copy: `open_in` of `passes` has just made it.
pub fn join_entries(context: &Context<'_>, deepest: &mut [u8])
    requires { deepest.old ≡ context.now.payload.now }
    ensures { DeepestOf context.now.payload.now deepest.new (entries_in context.now.tables context.now.notes.now) context.now.tables.types }
{
    let Ok(types) = u32::try_from(context.tables.types) else {
        return;
    };
    let mut last = 0;
    for i in 0..types {
        let Some(entry) = entry_at(context, i) else {
            continue;
        };
        if entry.start < last {
            sheet::put_all(deepest, 0, context.payload);
            return;
        }
        join_type(&mut deepest[entry.start..entry.end], 0, LEVELS);
        last = entry.end;
    }
}
