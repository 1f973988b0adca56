// Where the message of a type stands among the decoded bytes: a declaration's own type, and the first kept argument of a type. What a
// reading has accepted is found again, and nothing is refused. What is told: specs/told/PlacesTold.antt.
ghost use Rattle.std.specs.Prelude.{◌≡◌, false, List, ℕ, ◌+◌, ◌^◌, ◌<◌, ◌≤◌, length};
ghost use Rattle.schema.specs.told.SchemaTold.{Stands};
ghost use Rattle.schema.specs.told.PlacesTold.{read_in, found_type, EntryFound, PlaceFound, DeclaredFound, ArgumentFound};

use crate::argument::{ArgumentHead, argument_head};
use crate::types::{entry_at, is_nullable};
use crate::{FoundType, MAX_DEPTH, Reached, TypeSlot};
use fields::TYPE_ARGUMENT;
use foundation::{Context, Located, Span};
use messages::{bodies_from, bytes, index};

// The bytes among which a type is read. One in the type table, an entry or inline in one, that leaves no look-up to its arguments is read where entries are
// joined for that: arguments by an index, of which there may be thousands, are not there.
pub fn bytes_of_type<'a>(in_table: bool, left: usize, context: &Context<'a>) -> &'a [u8]
    ensures { result.now ≡ read_in context.now.payload.now context.now.deepest.now in_table left }
{
    if in_table && left <= 1 {
        return context.deepest;
    }
    context.payload
}

// The type at an index of the type table.
fn entry_place(index: u32, left: usize, context: &Context<'_>) -> Option<FoundType>
    requires { length context.now.payload.now ≤ 32768 }
    ensures { EntryFound context.now.payload.now context.now.notes.now context.now.tables index left result }
{
    if left == 0 {
        return None;
    }
    let entry = entry_at(context, index)?;
    let reached = Reached {
        nullable: is_nullable(context.tables, index),
        left: left - 1,
    };
    Some(FoundType {
        part: entry,
        reached,
        is_entry: true,
    })
}

// The type in a part of a message, which stands at `base`.
fn inline_place(base: usize, body: Span, left: usize) -> FoundType
    requires { (body.start ≤ body.end) × (base + body.end < 2 ^ 64) }
    ensures { result ≡ found_type (base + body.start) (base + body.end) false left false }
{
    let reached = Reached {
        nullable: false,
        left,
    };
    FoundType {
        part: body.moved(base),
        reached,
        is_entry: false,
    }
}

// The type in a message: inline in one field, else by its index in another. What is inline was cut when it was read.
fn type_place(
    msg: Located<'_>,
    slot: TypeSlot,
    left: usize,
    context: &Context<'_>,
) -> Option<FoundType>
    requires { Stands context.now.payload.now msg.bytes.now msg.base × (length context.now.payload.now ≤ 32768) }
    ensures { PlaceFound context.now.payload.now context.now.payload.now context.now.notes.now context.now.tables msg.entry.base (msg.entry.base + length msg.entry.bytes.now) slot.inline slot.indexed left result }
{
    if let Some(body) = bytes(msg, slot.inline) {
        return Some(inline_place(msg.base, body, left));
    }
    let at = index(msg, slot.indexed)?;
    entry_place(at, left, context)
}

// A declaration's own type, in the message that holds it.
// The payload's limit is no invariant of `Context`: readers of one name or one entry take a `Context` too, and ask for no limit.
// Callers show that the message stands in the payload and that this is within its limit: descriptors::defaults from its `PartRoom`.
pub fn declared_place(msg: Located<'_>, slot: TypeSlot, context: &Context<'_>) -> Option<FoundType>
    requires { Stands context.now.payload.now msg.bytes.now msg.base × (length context.now.payload.now ≤ 32768) }
    ensures { DeclaredFound context.now.payload.now context.now.notes.now context.now.tables msg.entry.base (msg.entry.base + length msg.entry.bytes.now) slot.inline slot.indexed result }
{
    type_place(msg, slot, MAX_DEPTH, context)
}

// The first kept argument of a type, in its message; `left` is what is left of the depth at its arguments. There is nothing to find of a star. The message
// stands among the decoded bytes, or among others that are as many (`bytes_of_type`).
// Callers show that it ends where the payload does at the latest: descriptors::erased cuts it out of bytes as long, and requires their limit itself.
pub fn first_argument(msg: Located<'_>, left: usize, context: &Context<'_>) -> Option<FoundType>
    requires { (msg.base + length msg.bytes.now ≤ length context.now.payload.now) × (length context.now.payload.now ≤ 32768) }
    ensures { (source : List ℕ) → length source ≡ length context.now.payload.now → Stands source msg.entry.bytes.now msg.entry.base → ArgumentFound source context.now.payload.now context.now.notes.now context.now.tables msg.entry.base (msg.entry.base + length msg.entry.bytes.now) left result }
{
    for argument in bodies_from(msg, TYPE_ARGUMENT, 0) {
        let part = msg.part(argument);
        match argument_head(part) {
            ArgumentHead::Star => return None,
            ArgumentHead::Inline {
                projection: _,
                body,
            } => return Some(inline_place(part.base, body, left)),
            ArgumentHead::ByIndex {
                projection: _,
                index: i,
            } => {
                if let Some(found) = entry_place(i, left, context) {
                    return Some(found);
                }
            }
            ArgumentHead::Nothing => {}
        }
    }
    None
}
