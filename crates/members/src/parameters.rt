// Value parameters: a name, whether a default is declared, a type and the type of vararg elements. The definitions: schema's specs/Members.antt,
// `parameter_in`; what the readers tell: specs/told/ParametersTold.antt.
ghost use Rattle.std.specs.Prelude.{◌≡◌, ◌+◌, ◌*◌, ◌≤◌, length};
ghost use Rattle.foundation.specs.told.Located.{told_part};
ghost use Rattle.foundation.specs.Results.{ok, ◌from◌};
ghost use Rattle.fields.specs.Fields.{ValueParameter-flags};
ghost use Rattle.sheet.specs.told.Put.{SameAreas};
ghost use Rattle.wire.specs.Wire.{cut, Message};
ghost use Rattle.schema.specs.Members.{bit_of, small_flags_in};
ghost use Rattle.schema.specs.told.SchemaTold.{lent};
ghost use Rattle.schema.specs.told.MembersTold.{Affords, parameter_cost};
ghost use Rattle.schema.specs.told.WroteTold.{walked, Writes};
ghost use Rattle.members.specs.told.ParametersTold.{section_told, ParameterTold, ParametersAtTold, ParametersInTold};

use crate::pairs::{TypePair, type_pair};
use declaration_rows::{Role, put_parameter};
use descriptors::slots::PARAMETER;
use fields::{
    OMITTED_SMALL_FLAGS, VALUE_PARAMETER_FLAGS, VALUE_PARAMETER_NAME,
    VALUE_PARAMETER_VARARG_ELEMENT_TYPE, VALUE_PARAMETER_VARARG_ELEMENT_TYPE_ID,
};
use foundation::{Context, Located};
use messages::{bodies_from, check_messages};
use schema::flags::{bit_of, flags_in};
use schema::name::name_in;
use schema::{Stop, TypeSlot};
use sheet::Output;

// Does a parameter declare a default?
fn declares_default(msg: Located<'_>) -> bool
    ensures { (m : Message) → cut (told_part msg.entry) ≡ ok m → bit_of 1 (small_flags_in ValueParameter-flags m) ≡ result }
{
    let flags = flags_in(msg, VALUE_PARAMETER_FLAGS, OMITTED_SMALL_FLAGS);
    bit_of(flags, 1)
}

// A parameter, with a name or without.
fn parameter_in(msg: Located<'_>, context: &Context<'_>, out: &mut Output<'_>) -> Result<(), Stop>
    requires { Affords (lent context.now) parameter_cost out.old.state × (msg.base + length msg.bytes.now ≤ length context.now.payload.now) }
    ensures same_areas { SameAreas out.old out.new }
    ensures written { Writes (ParameterTold (lent context.now) msg.entry.bytes.now msg.entry.base) out.old (walked result out.new) out.new }
{
    let name = name_in(msg, VALUE_PARAMETER_NAME, context);
    let default = declares_default(msg);
    put_parameter(context, name, default, out);
    let pair = TypePair {
        first: PARAMETER,
        second: TypeSlot {
            inline: VALUE_PARAMETER_VARARG_ELEMENT_TYPE,
            indexed: VALUE_PARAMETER_VARARG_ELEMENT_TYPE_ID,
            role: Role::VarargElement,
        },
    };
    type_pair(msg, pair, context, out)
}

// The parameters in a field, one after the other. All of them are cut.
// Not `list::members_at` with one kind more: its readers of members read parameters, so that they would call themselves.
fn parameters_at(
    msg: Located<'_>,
    number: u32,
    context: &Context<'_>,
    out: &mut Output<'_>,
) -> Result<usize, Stop>
    requires { Affords (lent context.now) (parameter_cost * length msg.bytes.now) out.old.state × (msg.base + length msg.bytes.now ≤ length context.now.payload.now) }
    ensures same_areas { SameAreas out.old out.new }
    ensures written { Writes (ParametersAtTold (lent context.now) msg.entry.bytes.now msg.entry.base number) out.old (section_told result out.new) out.new }
{
    // No `enumerate`: how many there are is the answer, and nobody asks for the place of one.
    let mut count: usize = 0;
    for parameter in bodies_from(msg, number, 0) {
        parameter_in(msg.part(parameter), context, out)?;
        count += 1;
    }
    Ok(count)
}

// The parameters in a field, all cut before the first is read.
pub(crate) fn parameters_in(
    msg: Located<'_>,
    number: u32,
    context: &Context<'_>,
    out: &mut Output<'_>,
) -> Result<usize, Stop>
    requires { Affords (lent context.now) (parameter_cost * length msg.bytes.now) out.old.state × (msg.base + length msg.bytes.now ≤ length context.now.payload.now) }
    ensures same_areas { SameAreas out.old out.new }
    ensures written { Writes (ParametersInTold (lent context.now) msg.entry.bytes.now msg.entry.base number) out.old (section_told result out.new) out.new }
{
    check_messages(msg, number)?;
    parameters_at(msg, number, context, out)
}
