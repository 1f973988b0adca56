// The arguments of a type: where the type of each stands, and how many are kept. What is told: specs/told/ParseTold.antt.
ghost use Rattle.std.specs.Prelude.{◌≡◌, ◌≤◌, length};
ghost use Rattle.schema.specs.told.SchemaTold.{lent};
ghost use Rattle.type_references.specs.told.ParseTold.{TypeFieldTold, ArgumentTold, KeptTold, CountTold};

use fields::TYPE_ARGUMENT;
use foundation::{Context, Located, Span};
use messages::{bodies_from, check, find_each, index_in, piece_in};
use schema::TypeSlot;
use schema::argument::{ArgumentHead, argument_head};
use schema::types::entry_at;
use wire::WireError;

// The type of a declaration: inline, or by its index.
#[derive(Clone, Copy)]
pub(crate) enum TypeField {
    Inline(Span),
    ByIndex(u32),
}

// The type in a message, if it is there: inline in one field of the slot, else by its index in the other.
pub(crate) fn type_field(msg: Located<'_>, slot: TypeSlot) -> Result<Option<TypeField>, WireError>
    ensures { TypeFieldTold msg.entry.base msg.entry.bytes.now slot.inline slot.indexed result }
{
    let [body, index] = find_each(msg, [slot.inline, slot.indexed]);
    if let Some(body) = piece_in(body) {
        check(msg.part(body))?;
        return Ok(Some(TypeField::Inline(body)));
    }
    Ok(index_in(index).map(TypeField::ByIndex))
}

// The argument in a part of a message: a star, or its projection and its type, which is inline in the message, by its index, or not there. A type
// that is inline is cut; that of a star is not. It is cut in `last`, the message as it is read where no look-up is left: there it is cut alike, and
// its arguments by an index, of which there may be thousands, cost nothing. It requires that the part lies in the message, so that it can be sliced.
pub(crate) fn argument_at(
    msg: Located<'_>,
    last: Located<'_>,
    part: Span,
) -> Result<ArgumentHead, WireError>
    requires { (part.start ≤ part.end) × (part.end ≤ length msg.bytes.now) × (last.base ≡ msg.base) × (length last.bytes.now ≡ length msg.bytes.now) }
    ensures { ArgumentTold msg.entry.base msg.entry.bytes.now last.entry.bytes.now part.start part.end result }
{
    let head = argument_head(msg.part(part));
    let ArgumentHead::Inline { projection, body } = head else {
        return Ok(head);
    };
    let inner = body.moved(part.start);
    check(last.part(inner))?;
    Ok(ArgumentHead::Inline {
        projection,
        body: inner,
    })
}

// Is an argument kept? It is a star, or its type is inline or at an index that the depth allows to look up.
// `resolve_at` asks the same two things of an index, but needs the place of the entry.
fn is_kept(msg: Located<'_>, left: usize, context: &Context<'_>) -> bool
    ensures { KeptTold (lent context.now) msg.entry.bytes.now msg.entry.base left result }
{
    match argument_head(msg) {
        ArgumentHead::Star => true,
        ArgumentHead::Inline {
            projection: _,
            body: _,
        } => true,
        ArgumentHead::ByIndex {
            projection: _,
            index,
        } => left != 0 && entry_at(context, index).is_some(),
        ArgumentHead::Nothing => false,
    }
}

// How many arguments of a type are kept. `left` is left at them.
pub(crate) fn count_kept(msg: Located<'_>, left: usize, context: &Context<'_>) -> usize
    ensures { CountTold (lent context.now) msg.entry.bytes.now msg.entry.base left result }
{
    // Tried by `filter` and `count`, and the proof didn't close: the test needs a part that lies in the message, and that is told step by step.
    let mut count: usize = 0;
    for argument in bodies_from(msg, TYPE_ARGUMENT, 0) {
        if is_kept(msg.part(argument), left, context) {
            count += 1;
        }
    }
    count
}
