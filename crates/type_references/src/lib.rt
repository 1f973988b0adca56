// Type references: a declaration's own type and those in its arguments, inline or by their index in the type table. Depth is counted down from
// 64, and so are the types that may still be entered. The definitions: schema's specs/Types.antt; what waits while inner types are read:
// specs/told/Pending.antt.
#![tactic(auto)]

ghost use Rattle.std.specs.Prelude.{◌+◌, ◌≤◌, length};
ghost use Rattle.sheet.specs.told.Put.{SameAreas};
ghost use Rattle.declaration_rows.specs.Declarations.{invariant};
ghost use Rattle.declaration_rows.specs.told.Written.{role_number};
ghost use Rattle.schema.specs.Reading.{allowance};
ghost use Rattle.schema.specs.Types.{max_depth};
ghost use Rattle.schema.specs.told.ArgumentTold.{projection_number};
ghost use Rattle.schema.specs.told.SchemaTold.{lent, Ready};
ghost use Rattle.schema.specs.told.TypesTold.{ParseTold};
ghost use Rattle.schema.specs.told.WroteTold.{walked, Writes};
ghost use Rattle.type_references.specs.told.ParseTold.{FitsEntry, FitsType};
ghost use Rattle.type_references.specs.told.OptionalTold.{LookedTold, OptionalTold};

use arguments::{TypeField, type_field};
use declaration_rows::Role;
use enter::{Shown, TypePlace};
use fields::TYPE_ARGUMENT;
use foundation::{Context, Located};
use messages::next_body;
use parse::{parse_at, resolve_at};
use schema::argument::Projection;
use schema::types::entry_at;
use schema::{ALLOWANCE, MAX_DEPTH, Reached, Stop, TypeSlot};
use sheet::Output;
use waiting::NOTHING_WAITS;

mod waiting; // waiting.rt: what waits in a lent area
mod arguments; // arguments.rt: the arguments of a type
mod enter; // enter.rt: a type's own row
mod parse; // parse.rt: types inside types

// A type whose message is cut, in an area for so many that wait.
// `msg`, `context` and `out` are no struct: each call would make one anew, since the message changes, and each function take it apart.
// The message has to lie in the payload, the first half of `Stands`. All of it is for what finds types again by place; here a message is only read.
fn type_in_area<const N: usize>(
    msg: Located<'_>,
    place: TypePlace,
    context: &Context<'_>,
    out: &mut Output<'_>,
) -> Result<(), Stop>
    requires { Ready (lent context.now) out.old.state × (msg.base + length msg.bytes.now ≤ length context.now.payload.now) × (place.reached.left ≤ 64) × FitsType (lent context.now) msg.base msg.bytes.now out.old.state.types N × (N ≤ allowance) }
    ensures same_areas { SameAreas out.old out.new }
    ensures written { Writes (ParseTold (lent context.now) msg.entry.bytes.now msg.entry.base place.reached.left (role_number place.shown.role) (projection_number place.shown.projection) place.reached.nullable) out.old (walked result out.new) out.new }
{
    let mut nest = [NOTHING_WAITS; N];
    parse_at(msg, msg, place, context, &mut nest, out)
}

// The same in the area that is enough for it. Most have no argument, so that nothing waits: they are lent an empty one, which costs nothing to
// clear. Where there is no type to look up, as many wait as a message has bytes at most: 768 bytes are enough for a short one. Elsewhere as many
// wait as types may be entered: 12 KB.
fn own_type(
    msg: Located<'_>,
    place: TypePlace,
    context: &Context<'_>,
    out: &mut Output<'_>,
) -> Result<(), Stop>
    requires { Ready (lent context.now) out.old.state × (msg.base + length msg.bytes.now ≤ length context.now.payload.now) × (place.reached.left ≤ 64) }
    ensures same_areas { SameAreas out.old out.new }
    ensures written { Writes (ParseTold (lent context.now) msg.entry.bytes.now msg.entry.base place.reached.left (role_number place.shown.role) (projection_number place.shown.projection) place.reached.nullable) out.old (walked result out.new) out.new }
{
    let Some(_) = next_body(msg, TYPE_ARGUMENT, 0) else {
        return type_in_area::<0>(msg, place, context, out);
    };
    if context.tables.types == 0 && msg.bytes.len() < 128 {
        return type_in_area::<128>(msg, place, context, out);
    }
    type_in_area::<ALLOWANCE>(msg, place, context, out)
}

// The type at an index of the type table, or nothing, in an area for so many that wait.
fn entry_in_area<const N: usize>(
    index: u32,
    role: Role,
    context: &Context<'_>,
    out: &mut Output<'_>,
) -> Result<(), Stop>
    requires { Ready (lent context.now) out.old.state × FitsEntry (lent context.now) index out.old.state.types N × (N ≤ allowance) }
    ensures same_areas { SameAreas out.old out.new }
    ensures written { Writes (LookedTold (lent context.now) index max_depth (role_number role) invariant) out.old (walked result out.new) out.new }
{
    let mut nest = [NOTHING_WAITS; N];
    let shown = Shown {
        role,
        projection: Projection::Invariant,
    };
    resolve_at(index, MAX_DEPTH, shown, context, &mut nest, out)
}

// The same in the area that is enough for it, as above.
fn looked_up(
    index: u32,
    role: Role,
    context: &Context<'_>,
    out: &mut Output<'_>,
) -> Result<(), Stop>
    requires { Ready (lent context.now) out.old.state }
    ensures same_areas { SameAreas out.old out.new }
    ensures written { Writes (LookedTold (lent context.now) index max_depth (role_number role) invariant) out.old (walked result out.new) out.new }
{
    let Some(entry) = entry_at(context, index) else {
        return Ok(());
    };
    let msg = Located::of(context.payload, entry);
    let Some(_) = next_body(msg, TYPE_ARGUMENT, 0) else {
        return entry_in_area::<0>(index, role, context, out);
    };
    entry_in_area::<ALLOWANCE>(index, role, context, out)
}

// A declaration's own type, if it is there: inline in one field of its message, else by its index in another.
// Callers show `Ready` and that the message is within the payload: the files of members from the `Affords` and `Stands` that they require.
pub fn declared_type(
    msg: Located<'_>,
    slot: TypeSlot,
    context: &Context<'_>,
    out: &mut Output<'_>,
) -> Result<(), Stop>
    requires { Ready (lent context.now) out.old.state × (msg.base + length msg.bytes.now ≤ length context.now.payload.now) }
    ensures same_areas { SameAreas out.old out.new }
    ensures written { Writes (OptionalTold (lent context.now) msg.entry.bytes.now msg.entry.base slot.inline slot.indexed (role_number slot.role)) out.old (walked result out.new) out.new }
{
    let Some(field) = type_field(msg, slot)? else {
        return Ok(());
    };
    match field {
        TypeField::Inline(body) => {
            let place = TypePlace {
                shown: Shown {
                    role: slot.role,
                    projection: Projection::Invariant,
                },
                reached: Reached {
                    nullable: false,
                    left: MAX_DEPTH,
                },
            };
            own_type(msg.part(body), place, context, out)
        }
        TypeField::ByIndex(index) => looked_up(index, slot.role, context, out),
    }
}
