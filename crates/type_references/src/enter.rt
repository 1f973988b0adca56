// A type is entered: its row, with how many of its arguments are kept. What is told: specs/told/ParseTold.antt.
ghost use Rattle.std.specs.Prelude.{◌≡◌, false, [], ◌∷◌, ◌-◌, ◌≤◌};
ghost use Rattle.names.specs.told.Name.{name_text};
ghost use Rattle.sheet.specs.Rows.{row};
ghost use Rattle.sheet.specs.told.Put.{SameAreas, WroteRows};
ghost use Rattle.declaration_rows.specs.Rows.{type_cells};
ghost use Rattle.declaration_rows.specs.declared.Role.TheVariants.{Argument};
ghost use Rattle.declaration_rows.specs.told.Written.{role_number};
ghost use Rattle.schema.specs.told.ArgumentTold.{projection_number};
ghost use Rattle.schema.specs.told.SchemaTold.{lent, Ready};
ghost use Rattle.schema.specs.told.WroteTold.{walked, Writes};
ghost use Rattle.type_references.specs.told.ParseTold.{CountedTold, EnterTold, StarTold};

use crate::arguments::count_kept;
use declaration_rows::kinds::RecordKind;
use declaration_rows::{Role, put_named};
use fields::TYPE_ARGUMENT;
use foundation::{Context, Located, put};
use messages::check_messages;
use names::name::Name;
use schema::argument::Projection;
use schema::head::type_head;
use schema::name::class_name_at;
use schema::{Reached, Stop};
use sheet::{Output, put_bit, put_number};
use wire::WireError;

// How a type's record shows it, apart from what its message says: its role and its projection.
#[derive(Clone, Copy)]
pub(crate) struct Shown {
    pub role: Role,
    pub projection: Projection,
}

impl Shown {
    // As an argument.
    pub(crate) fn argument(projection: Projection) -> Shown
        ensures { result ≡ record { role = Argument; projection = projection } }
    {
        Shown {
            role: Role::Argument,
            projection,
        }
    }
}

// Where a type stands: how its record shows it, and how it is reached.
#[derive(Clone, Copy)]
pub(crate) struct TypePlace {
    pub shown: Shown,
    pub reached: Reached,
}

impl TypePlace {
    // An argument's own type, inline in it. The type table says nothing of it.
    pub(crate) fn inline(projection: Projection, left: usize) -> TypePlace
        ensures { result ≡ record { shown = record { role = Argument; projection = projection }; reached = record { nullable = false; left = left } } }
    {
        TypePlace {
            shown: Shown::argument(projection),
            reached: Reached {
                nullable: false,
                left,
            },
        }
    }
}

// A type's record.
fn put_type(
    shown: Shown,
    nullable: bool,
    context: &Context<'_>,
    name: Option<Name>,
    count: usize,
    out: &mut Output<'_>,
)
    requires { Ready (lent context.now) out.old.state × (1 ≤ out.old.state.types) }
    ensures same_areas { SameAreas out.old out.new }
    ensures written { WroteRows (row 6 (type_cells (role_number shown.role) nullable (name_text context.now.payload.now context.now.d2.now name) count (projection_number shown.projection)) ∷ []) (out.old.state.types - 1) out.old out.new }
{
    let at = out.state.sheet;
    put(out.sheet, at, RecordKind::Type.number());
    put_number(out.sheet, at + 1, 1, u64::from(shown.role.number()));
    put_bit(out.sheet, at + 2, nullable);
    out.state.sheet = at + 3;
    out.state.types -= 1;
    put_named(context, name, out);
    // `as u64`: Rust has no `From<usize>` for `u64`.
    put_number(out.sheet, out.state.sheet, 2, count as u64);
    out.state.sheet += 2;
    put_number(
        out.sheet,
        out.state.sheet,
        1,
        u64::from(shown.projection.number()),
    );
    out.state.sheet += 1;
}

// The arguments of a type are cut and counted. `left` is left at them.
fn count_arguments(msg: Located<'_>, left: usize, context: &Context<'_>) -> Result<usize, WireError>
    ensures { CountedTold (lent context.now) msg.entry.bytes.now msg.entry.base left result }
{
    check_messages(msg, TYPE_ARGUMENT)?;
    Ok(count_kept(msg, left, context))
}

// A star is entered: its record, which is blank.
pub(crate) fn enter_star(context: &Context<'_>, out: &mut Output<'_>) -> Result<(), Stop>
    requires { Ready (lent context.now) out.old.state }
    ensures same_areas { SameAreas out.old out.new }
    ensures written { Writes StarTold out.old (walked result out.new) out.new }
{
    if out.state.types == 0 {
        return Err(Stop::TooManyTypes);
    }
    let shown = Shown::argument(Projection::Star);
    put_type(shown, false, context, None, 0, out);
    Ok(())
}

// A type whose message is cut is entered; its arguments are to follow.
#[inline(always)]
pub(crate) fn enter_type(
    msg: Located<'_>,
    place: TypePlace,
    context: &Context<'_>,
    out: &mut Output<'_>,
) -> Result<(), Stop>
    requires { Ready (lent context.now) out.old.state }
    ensures same_areas { SameAreas out.old out.new }
    ensures written { Writes (EnterTold (lent context.now) msg.entry.bytes.now msg.entry.base place.reached.left (role_number place.shown.role) (projection_number place.shown.projection) place.reached.nullable) out.old (walked result out.new) out.new }
{
    if out.state.types == 0 {
        return Err(Stop::TooManyTypes);
    }
    let own = type_head(msg);
    let count = if own.arguments {
        count_arguments(msg, place.reached.left.saturating_sub(1), context)?
    } else {
        0
    };
    let nullable = place.reached.nullable || own.nullable;
    let name = class_name_at(own.name, context);
    put_type(place.shown, nullable, context, name, count, out);
    Ok(())
}
