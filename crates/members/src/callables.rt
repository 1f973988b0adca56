// Constructors and functions. The definitions: schema's specs/Members.antt; what the readers tell: specs/told/CallablesTold.antt, schema's specs/told/MembersTold.antt.
ghost use Rattle.std.specs.Prelude.{◌+◌, ◌≤◌, length};
ghost use Rattle.sheet.specs.told.Put.{SameAreas};
ghost use Rattle.schema.specs.Members.{constructor_in, function_in};
ghost use Rattle.declaration_rows.specs.Rows.{constructor_rows, function_rows};
ghost use Rattle.schema.specs.told.SchemaTold.{lent, Ready};
ghost use Rattle.schema.specs.told.MembersTold.{Affords, member_cost, MemberTold};
ghost use Rattle.schema.specs.told.WroteTold.{picked, walked, Stays, Writes};
ghost use Rattle.members.specs.told.CallablesTold.{function_head_cost, FunctionHead, FunctionTypesTold};

use crate::parameters::parameters_in;
use crate::signatures::{Signed, names_of, signature_in};
use declaration_rows::{SignatureNames, put_constructor, put_count, put_function};
use descriptors::slots::{FUNCTION_RECEIVER, FUNCTION_RETURN};
use fields::{
    CONSTRUCTOR_CONSTRUCTOR_SIGNATURE, CONSTRUCTOR_FLAGS, CONSTRUCTOR_VALUE_PARAMETER,
    FUNCTION_FLAGS, FUNCTION_METHOD_SIGNATURE, FUNCTION_NAME, FUNCTION_VALUE_PARAMETER,
    OMITTED_FLAGS,
};
use foundation::{Context, Located};
use names::name::Name;
use schema::Stop;
use schema::flags::flags_in;
use schema::name::name_in;
use schema::receiver::has_receiver;
use sheet::Output;
use type_references::declared_type;

// A constructor. Its signature is looked up first, since it stands in its record; its refusal is due after the parameters.
pub(crate) fn constructor_in(
    msg: Located<'_>,
    context: &Context<'_>,
    out: &mut Output<'_>,
) -> Result<bool, Stop>
    requires { Affords (lent context.now) (member_cost (length msg.bytes.now)) out.old.state × (msg.base + length msg.bytes.now ≤ length context.now.payload.now) }
    ensures same_areas { SameAreas out.old out.new }
    ensures stays { Stays result out.old out.new }
    ensures written { Writes (MemberTold constructor_in constructor_rows (member_cost (length msg.entry.bytes.now)) (lent context.now) msg.entry.bytes.now msg.entry.base) out.old (picked result out.new) out.new }
{
    let flags = flags_in(msg, CONSTRUCTOR_FLAGS, OMITTED_FLAGS);
    let signed = signature_in(msg, CONSTRUCTOR_CONSTRUCTOR_SIGNATURE, context);
    put_constructor(context, flags, names_of(signed), out);
    let place = out.state.sheet;
    out.state.sheet += 2;
    let count = parameters_in(msg, CONSTRUCTOR_VALUE_PARAMETER, context, out)?;
    signed?;
    put_count(out.sheet, place, count);
    Ok(true)
}

// A function's record up to its parameter count. The name of its signature falls back to the function's own.
fn function_head(
    msg: Located<'_>,
    name: Name,
    signed: Signed,
    context: &Context<'_>,
    out: &mut Output<'_>,
)
    requires { Affords (lent context.now) function_head_cost out.old.state }
    ensures same_areas { SameAreas out.old out.new }
    ensures written { Writes (FunctionHead (lent context.now) msg.entry.bytes.now msg.entry.base name signed) out.old out.new.state out.new }
{
    let flags = flags_in(msg, FUNCTION_FLAGS, OMITTED_FLAGS);
    let own = names_of(signed);
    let names = SignatureNames {
        name: own.name.or(Some(name)),
        descriptor: own.descriptor,
    };
    let receiver = has_receiver(msg, FUNCTION_RECEIVER);
    put_function(context, Some(name), flags, names, receiver, out);
}

// What follows a function's parameters: its receiver's type, the refusal of its signature, its return type.
fn function_types(
    msg: Located<'_>,
    signed: Signed,
    context: &Context<'_>,
    out: &mut Output<'_>,
) -> Result<(), Stop>
    requires { Ready (lent context.now) out.old.state × (msg.base + length msg.bytes.now ≤ length context.now.payload.now) }
    ensures same_areas { SameAreas out.old out.new }
    ensures written { Writes (FunctionTypesTold (lent context.now) msg.entry.bytes.now msg.entry.base signed) out.old (walked result out.new) out.new }
{
    declared_type(msg, FUNCTION_RECEIVER, context, out)?;
    signed?;
    declared_type(msg, FUNCTION_RETURN, context, out)
}

// A function. One without a name is skipped before anything inside it is read. Its signature is looked up first, since it stands in its
// record.
pub(crate) fn function_in(
    msg: Located<'_>,
    context: &Context<'_>,
    out: &mut Output<'_>,
) -> Result<bool, Stop>
    requires { Affords (lent context.now) (member_cost (length msg.bytes.now)) out.old.state × (msg.base + length msg.bytes.now ≤ length context.now.payload.now) }
    ensures same_areas { SameAreas out.old out.new }
    ensures stays { Stays result out.old out.new }
    ensures written { Writes (MemberTold function_in function_rows (member_cost (length msg.entry.bytes.now)) (lent context.now) msg.entry.bytes.now msg.entry.base) out.old (picked result out.new) out.new }
{
    let Some(name) = name_in(msg, FUNCTION_NAME, context) else {
        return Ok(false);
    };
    let signed = signature_in(msg, FUNCTION_METHOD_SIGNATURE, context);
    function_head(msg, name, signed, context, out);
    let place = out.state.sheet;
    out.state.sheet += 2;
    let count = parameters_in(msg, FUNCTION_VALUE_PARAMETER, context, out)?;
    function_types(msg, signed, context, out)?;
    put_count(out.sheet, place, count);
    Ok(true)
}
