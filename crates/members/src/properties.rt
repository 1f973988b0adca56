// Properties. The definition: schema's specs/Members.antt, `property_in`; what the readers tell: specs/told/PropertiesTold.antt, schema's specs/told/MembersTold.antt.
ghost use Rattle.std.specs.Prelude.{◌≡◌, ◌+◌, ◌*◌, ◌^◌, ◌≤◌, length};
ghost use Rattle.sheet.specs.told.Put.{SameAreas};
ghost use Rattle.foundation.specs.told.Located.{told_part};
ghost use Rattle.foundation.specs.Results.{ok, ◌from◌};
ghost use Rattle.wire.specs.Wire.{cut, Message};
ghost use Rattle.schema.specs.Members.{accessor_is_default, property_in};
ghost use Rattle.declaration_rows.specs.Rows.{property_rows};
ghost use Rattle.schema.specs.told.SchemaTold.{lent};
ghost use Rattle.declaration_rows.specs.told.Written.{RecordRoom};
ghost use Rattle.schema.specs.told.MembersTold.{Affords, member_cost, MemberTold};
ghost use Rattle.schema.specs.told.WroteTold.{picked, Stays, Writes};
ghost use Rattle.members.specs.told.PropertiesTold.{PropertyRecordTold, NamedPropertyTold};

use crate::signatures::{PropertyNames, check_accessors, names_of, property_signatures};
use declaration_rows::{PropertyFlags, Role, put_property};
use fields::{
    OMITTED_FLAGS, OMITTED_SMALL_FLAGS, PROPERTY_FLAGS, PROPERTY_GETTER_FLAGS, PROPERTY_NAME,
    PROPERTY_RECEIVER_TYPE, PROPERTY_RECEIVER_TYPE_ID, PROPERTY_RETURN_TYPE,
    PROPERTY_RETURN_TYPE_ID, PROPERTY_SETTER_FLAGS,
};
use foundation::{Context, Located};
use names::name::Name;
use schema::flags::{bit_of, flags_in};
use schema::name::name_in;
use schema::receiver::has_receiver;
use schema::{Stop, TypeSlot};
use sheet::Output;
use type_references::declared_type;

// Where the type of a property's receiver stands.
const PROPERTY_RECEIVER: TypeSlot = TypeSlot {
    inline: PROPERTY_RECEIVER_TYPE,
    indexed: PROPERTY_RECEIVER_TYPE_ID,
    role: Role::Receiver,
};

// An accessor is default unless bit 6 of its flags says otherwise.
fn is_default(msg: Located<'_>, number: u32) -> bool
    ensures { (m : Message) → cut (told_part msg.entry) ≡ ok m → accessor_is_default number m ≡ result }
{
    let flags = flags_in(msg, number, OMITTED_SMALL_FLAGS);
    !bit_of(flags, 6)
}

// A property's own name and those of its signatures.
#[derive(Clone, Copy)]
struct Named {
    name: Name,
    names: PropertyNames,
}

// A property's record, of kind 4.
fn put_record(msg: Located<'_>, context: &Context<'_>, own: Named, out: &mut Output<'_>)
    requires { RecordRoom (2 ^ 61) context.now.payload.now context.now.d2.now out.old.state }
    ensures same_areas { SameAreas out.old out.new }
    ensures written { Writes (PropertyRecordTold (lent context.now) msg.entry.bytes.now msg.entry.base own.name own.names) out.old out.new.state out.new }
{
    let flags = PropertyFlags {
        word: flags_in(msg, PROPERTY_FLAGS, OMITTED_FLAGS),
        receiver: has_receiver(msg, PROPERTY_RECEIVER),
        getter: is_default(msg, PROPERTY_GETTER_FLAGS),
        setter: is_default(msg, PROPERTY_SETTER_FLAGS),
    };
    let names = own.names;
    put_property(
        context,
        Some(own.name),
        flags,
        names.field,
        names_of(names.getter),
        names_of(names.setter),
        out,
    );
}

// A property whose name is there and whose signatures are looked up: its record, its receiver's type, then what its accessors are refused
// for, then its own type.
fn named_property(
    msg: Located<'_>,
    own: Named,
    context: &Context<'_>,
    out: &mut Output<'_>,
) -> Result<bool, Stop>
    requires { Affords (lent context.now) (member_cost (length msg.bytes.now)) out.old.state × (msg.base + length msg.bytes.now ≤ length context.now.payload.now) }
    ensures same_areas { SameAreas out.old out.new }
    ensures stays { Stays result out.old out.new }
    ensures written { Writes (NamedPropertyTold (lent context.now) msg.entry.bytes.now msg.entry.base own.name own.names) out.old (picked result out.new) out.new }
{
    put_record(msg, context, own, out);
    declared_type(msg, PROPERTY_RECEIVER, context, out)?;
    check_accessors(own.names)?;
    let returned = TypeSlot {
        inline: PROPERTY_RETURN_TYPE,
        indexed: PROPERTY_RETURN_TYPE_ID,
        role: Role::Return,
    };
    declared_type(msg, returned, context, out)?;
    Ok(true)
}

// A property: skipped without a name, before anything inside it is read.
pub(crate) fn property_in(
    msg: Located<'_>,
    context: &Context<'_>,
    out: &mut Output<'_>,
) -> Result<bool, Stop>
    requires { Affords (lent context.now) (member_cost (length msg.bytes.now)) out.old.state × (msg.base + length msg.bytes.now ≤ length context.now.payload.now) }
    ensures same_areas { SameAreas out.old out.new }
    ensures stays { Stays result out.old out.new }
    ensures written { Writes (MemberTold property_in property_rows (member_cost (length msg.entry.bytes.now)) (lent context.now) msg.entry.bytes.now msg.entry.base) out.old (picked result out.new) out.new }
{
    let Some(name) = name_in(msg, PROPERTY_NAME, context) else {
        return Ok(false);
    };
    let names = property_signatures(msg, context)?;
    let own = Named { name, names };
    named_property(msg, own, context, out)
}
