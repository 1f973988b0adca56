// Types and their arguments. `parse_at`, `arguments_at` and `resolve_at` are one cycle: what falls along it is one number of the depth left, of
// which a look-up takes one, and the bytes of the message (`remaining`). Types inside types are a loop, since an input can nest 2,048 of them:
// what falls there is the bytes left. Arguments by an index that are dropped because no look-up is left cost nothing where `context.deepest` is without
// them. What is told: specs/told/ParseTold.antt and schema's specs/told/TypesTold.antt.
ghost use Rattle.std.specs.Prelude.{◌≡◌, ◌≤◌, length};
ghost use Rattle.sheet.specs.told.Put.{SameAreas};
ghost use Rattle.declaration_rows.specs.told.Written.{role_number};
ghost use Rattle.schema.specs.told.ArgumentTold.{projection_number};
ghost use Rattle.schema.specs.told.SchemaTold.{lent, Ready};
ghost use Rattle.schema.specs.told.WroteTold.{walked, Writes};
ghost use Rattle.type_references.specs.told.OptionalTold.{LookedTold};
ghost use Rattle.type_references.specs.told.ParseTold.{ArgumentsTold, FitsEntry, NestRoom, ParseRoom, TwinTold};

use crate::arguments::argument_at;
use crate::enter::{Shown, TypePlace, enter_star, enter_type};
use crate::waiting::Waiting;
use fields::TYPE_ARGUMENT;
use foundation::{Context, Located, Span};
use messages::next_body;
use schema::argument::ArgumentHead;
use schema::types::{entry_at, is_nullable};
use schema::{Reached, Stop};
use sheet::Output;

// The arguments of the type in a message, one after the other, and theirs. `left` is left at them; what waits stands in `nest`, and a look-up is
// lent what is free of it. A loop by hand, since no list holds what it goes over: after an inline argument it goes on inside it, and the rest waits. `height`
// counts what waits. `last` is the message as it is read where no look-up is left: an inline argument that leaves none to its own arguments is read there, on
// its own, and what waits stays as it was.
#[cycle(arguments_at_parse_at_resolve_at)]
fn arguments_at(
    msg: Located<'_>,
    last: Located<'_>,
    left: usize,
    context: &Context<'_>,
    nest: &mut [Waiting],
    out: &mut Output<'_>,
) -> Result<(), Stop>
    requires { NestRoom (lent context.now) msg.bytes.now nest.old msg.base left out.old.state × (last.base ≡ msg.base) × (length last.bytes.now ≡ length msg.bytes.now) }
    ensures same_areas { SameAreas out.old out.new }
    ensures written { Writes (ArgumentsTold (lent context.now) msg.entry.bytes.now last.entry.bytes.now msg.entry.base left) out.old (walked result out.new) out.new }
{
    let mut at = 0;
    let mut end = msg.bytes.len();
    let mut deep = left;
    let mut height: usize = 0;
    loop {
        let before = msg.part(Span { start: 0, end });
        let Some(part) = next_body(before, TYPE_ARGUMENT, at) else {
            if height == 0 {
                return Ok(());
            }
            height -= 1;
            let outer = nest[height];
            at = usize::from(outer.at);
            end = usize::from(outer.end);
            deep = usize::from(outer.left);
            continue;
        };
        at = part.end;
        match argument_at(msg, last, part)? {
            ArgumentHead::Star => enter_star(context, out)?,
            ArgumentHead::Inline { projection, body } => {
                let place = TypePlace::inline(projection, deep);
                if deep == 1 {
                    let inner = last.part(body);
                    parse_at(inner, inner, place, context, &mut nest[height..], out)?;
                    continue;
                }
                enter_type(msg.part(body), place, context, out)?;
                nest[height] = Waiting::of(at, end, deep);
                height += 1;
                at = body.start;
                end = body.end;
                deep = deep.saturating_sub(1);
            }
            ArgumentHead::ByIndex { projection, index } => {
                let shown = Shown::argument(projection);
                resolve_at(index, deep, shown, context, &mut nest[height..], out)?;
            }
            ArgumentHead::Nothing => {}
        }
    }
}

// A type whose message is cut. One with no argument may be lent an empty area. `last` is the message as it is read where no look-up is left.
#[cycle(arguments_at_parse_at_resolve_at)]
#[inline(always)]
pub(crate) fn parse_at(
    msg: Located<'_>,
    last: Located<'_>,
    place: TypePlace,
    context: &Context<'_>,
    nest: &mut [Waiting],
    out: &mut Output<'_>,
) -> Result<(), Stop>
    requires { ParseRoom (lent context.now) msg.bytes.now nest.old msg.base place.reached.left out.old.state × (last.base ≡ msg.base) × (length last.bytes.now ≡ length msg.bytes.now) }
    ensures same_areas { SameAreas out.old out.new }
    ensures written { Writes (TwinTold (lent context.now) msg.entry.bytes.now last.entry.bytes.now msg.entry.base place.reached.left (role_number place.shown.role) (projection_number place.shown.projection) place.reached.nullable) out.old (walked result out.new) out.new }
{
    enter_type(msg, place, context, out)?;
    if nest.len() == 0 {
        return Ok(());
    }
    arguments_at(
        msg,
        last,
        place.reached.left.saturating_sub(1),
        context,
        nest,
        out,
    )
}

// The type at an index of the type table, or nothing. One that leaves no look-up to its arguments is read among the bytes that are for that.
// Schema's `entry_place` takes these steps too, but tells of what a reading has accepted.
#[cycle(arguments_at_parse_at_resolve_at)]
pub(crate) fn resolve_at(
    index: u32,
    left: usize,
    shown: Shown,
    context: &Context<'_>,
    nest: &mut [Waiting],
    out: &mut Output<'_>,
) -> Result<(), Stop>
    requires { Ready (lent context.now) out.old.state × (left ≤ 64) × FitsEntry (lent context.now) index out.old.state.types (length nest.old) }
    ensures same_areas { SameAreas out.old out.new }
    ensures written { Writes (LookedTold (lent context.now) index left (role_number shown.role) (projection_number shown.projection)) out.old (walked result out.new) out.new }
{
    if left == 0 {
        return Ok(());
    }
    let Some(entry) = entry_at(context, index) else {
        return Ok(());
    };
    let reached = Reached {
        nullable: is_nullable(context.tables, index),
        left: left - 1,
    };
    let place = TypePlace { shown, reached };
    let last = Located::of(context.deepest, entry);
    if reached.left <= 1 {
        return parse_at(last, last, place, context, nest, out);
    }
    let msg = Located::of(context.payload, entry);
    parse_at(msg, last, place, context, nest, out)
}
