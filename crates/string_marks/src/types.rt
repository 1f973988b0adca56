// Types, as schema's `type_at` and `declared_type` read them. What was accepted is found again, and nothing is refused: so no message is cut a second time,
// and no type counted. What is told: specs/told/MarksTold.antt, specs/told/InnerTold.antt.
ghost use Rattle.std.specs.Prelude.{◌+◌, ◌≤◌, length};
ghost use Rattle.fields.specs.Fields.{Type-argument};
ghost use Rattle.messages.specs.told.Asked.{NextBodyTold};
ghost use Rattle.characters.specs.told.Places.{part_from};
ghost use Rattle.schema.specs.told.SchemaTold.{lent};
ghost use Rattle.string_marks.specs.told.MarksTold.{TypeMarked, DeclaredMarked};
ghost use Rattle.string_marks.specs.told.InnerTold.{TableInside, PartInner, EntryInner, ArgumentInner};

use crate::look_ups::mark_name;
use fields::{TYPE_ARGUMENT, TYPE_CLASS_NAME};
use foundation::{Context, Located, Span};
use messages::{bytes, index, next_body};
use schema::argument::{ArgumentHead, argument_head};
use schema::types::entry_at;
use schema::{MAX_DEPTH, TypeSlot};

// What is left of the depth at a declaration's own type.
const DEPTH: u32 = MAX_DEPTH as u32;

// A type inside another or inside a declaration: its message, what is left of the depth at it, and whether it stands in the type table, as an entry or
// inline in one. Four words: they stand in the frame of each level of types.
#[derive(Clone, Copy)]
struct Inner<'a> {
    msg: Located<'a>,
    left: u32,
    in_table: bool,
}

// The type in a part of a message. One in the type table that leaves no look-up to its arguments is read among the bytes that are for that, at the same
// place: arguments by an index, of which there may be thousands, are not there.
fn inner_at<'a>(
    msg: Located<'a>,
    part: Span,
    left: u32,
    in_table: bool,
    context: &Context<'a>,
) -> Inner<'a>
    requires { (part.start ≤ part.end) × (part.end ≤ length msg.bytes.now) × TableInside (lent context.now) in_table msg.base msg.bytes.now }
    ensures { PartInner (lent context.now) (msg.entry.base + part.start) (part_from part.start part.end msg.entry.bytes.now) left in_table result }
{
    if in_table && left <= 1 {
        return Inner {
            msg: Located::of(context.deepest, part.moved(msg.base)),
            left,
            in_table,
        };
    }
    Inner {
        msg: msg.part(part),
        left,
        in_table,
    }
}

// The type at an index of the type table, if there is one and the depth allows to look it up.
fn type_of_entry<'a>(index: u32, left: u32, context: &Context<'a>) -> Option<Inner<'a>>
    ensures { EntryInner (lent context.now) index left result }
{
    if left == 0 {
        return None;
    }
    let entry = entry_at(context, index)?;
    let payload = Located::whole(context.payload);
    let left = left - 1;
    Some(inner_at(payload, entry, left, true, context))
}

// The next argument of a type from a place on. It is never made a part of `mark_type`, whose frame stands once for each level of types.
#[inline(never)]
fn next_argument(msg: Located<'_>, at: usize) -> Option<Span>
    ensures { NextBodyTold msg.entry.base msg.entry.bytes.now Type-argument at result }
{
    next_body(msg, TYPE_ARGUMENT, at)
}

// The type of an argument, which is a part of a message; that of a star is not read. It is no part of `mark_type` either, and the argument's own message is
// made here, for the frame's sake: so the part is handed on, and has to lie in the message.
#[inline(never)]
fn type_of_argument<'a>(
    msg: Located<'a>,
    part: Span,
    left: u32,
    in_table: bool,
    context: &Context<'a>,
) -> Option<Inner<'a>>
    requires { (part.start ≤ part.end) × (part.end ≤ length msg.bytes.now) × TableInside (lent context.now) in_table msg.base msg.bytes.now }
    ensures { ArgumentInner (lent context.now) (msg.entry.base + part.start) (part_from part.start part.end msg.entry.bytes.now) left in_table result }
{
    let argument = msg.part(part);
    match argument_head(argument) {
        ArgumentHead::Inline {
            projection: _,
            body,
        } => Some(inner_at(argument, body, left, in_table, context)),
        ArgumentHead::ByIndex {
            projection: _,
            index,
        } => type_of_entry(index, left, context),
        ArgumentHead::Star | ArgumentHead::Nothing => None,
    }
}

// A type's arguments, then its name. Each type is a call, so that its frame is to be small: a reading that is accepted enters 2,048 types at most.
#[cycle(mark_type)]
fn mark_type<'a>(outer: Inner<'a>, context: &Context<'a>, used: &mut [u8])
    requires { TableInside (lent context.now) outer.in_table outer.msg.base outer.msg.bytes.now }
    ensures { TypeMarked (lent context.now) outer.entry.msg.base outer.entry.msg.bytes.now outer.entry.left outer.entry.in_table used.old used.new }
{
    let mut at = 0;
    while let Some(argument) = next_argument(outer.msg, at) {
        let left = outer.left.saturating_sub(1);
        if let Some(inner) = type_of_argument(outer.msg, argument, left, outer.in_table, context) {
            mark_type(inner, context, used);
        }
        at = argument.end;
    }
    mark_name(outer.msg, TYPE_CLASS_NAME, context, used);
}

// A declaration's own type: inline in one field of its message, else by its index in another.
pub(crate) fn mark_declared(
    msg: Located<'_>,
    slot: TypeSlot,
    context: &Context<'_>,
    used: &mut [u8],
)
    ensures { DeclaredMarked (lent context.now) msg.entry.base msg.entry.bytes.now slot.inline slot.indexed used.old used.new }
{
    if let Some(body) = bytes(msg, slot.inline) {
        let own = Inner {
            msg: msg.part(body),
            left: DEPTH,
            in_table: false,
        };
        mark_type(own, context, used);
        return;
    }
    let Some(i) = index(msg, slot.indexed) else {
        return;
    };
    if let Some(inner) = type_of_entry(i, DEPTH, context) {
        mark_type(inner, context, used);
    }
}
