// Members, in the order in which schema's definitions read them (specs/Members.antt). What is told: specs/told/MarksTold.antt.
ghost use Rattle.fields.specs.Fields.{Constructor-value_parameter, Function-value_parameter};
ghost use Rattle.schema.specs.Members.{field_in, signature_in, parameter_in, parameters_in, list_in, constructor_in, function_in, property_in, alias_in};
ghost use Rattle.schema.specs.told.SchemaTold.{lent};
ghost use Rattle.members.specs.Lists.{member_in};
ghost use Rattle.string_marks.specs.told.MarksTold.{MarksIn, SignatureMarked, SignatureInMarked, FieldMarked, AccessorMarked};

use crate::look_ups::mark_name;
use crate::types::mark_declared;
use declaration_rows::Role;
use descriptors::slots::{FUNCTION_RECEIVER, FUNCTION_RETURN, PARAMETER};
use fields::{
    CONSTRUCTOR_CONSTRUCTOR_SIGNATURE, CONSTRUCTOR_VALUE_PARAMETER, FUNCTION_METHOD_SIGNATURE,
    FUNCTION_NAME, FUNCTION_VALUE_PARAMETER, JVM_METHOD_SIGNATURE_DESC, JVM_METHOD_SIGNATURE_NAME,
    JVM_PROPERTY_SIGNATURE_FIELD, JVM_PROPERTY_SIGNATURE_GETTER, JVM_PROPERTY_SIGNATURE_SETTER,
    PROPERTY_NAME, PROPERTY_PROPERTY_SIGNATURE, PROPERTY_RECEIVER_TYPE, PROPERTY_RECEIVER_TYPE_ID,
    PROPERTY_RETURN_TYPE, PROPERTY_RETURN_TYPE_ID, TYPE_ALIAS_EXPANDED_TYPE,
    TYPE_ALIAS_EXPANDED_TYPE_ID, TYPE_ALIAS_NAME, TYPE_ALIAS_UNDERLYING_TYPE,
    TYPE_ALIAS_UNDERLYING_TYPE_ID, VALUE_PARAMETER_NAME, VALUE_PARAMETER_VARARG_ELEMENT_TYPE,
    VALUE_PARAMETER_VARARG_ELEMENT_TYPE_ID,
};
use foundation::{Context, Located};
use members::list::{Member, MemberList};
use messages::{bodies_from, bytes, message};
use schema::TypeSlot;
use schema::name::name_in;

const VARARG_ELEMENT: TypeSlot = TypeSlot {
    inline: VALUE_PARAMETER_VARARG_ELEMENT_TYPE,
    indexed: VALUE_PARAMETER_VARARG_ELEMENT_TYPE_ID,
    role: Role::VarargElement,
};

const PROPERTY_RECEIVER: TypeSlot = TypeSlot {
    inline: PROPERTY_RECEIVER_TYPE,
    indexed: PROPERTY_RECEIVER_TYPE_ID,
    role: Role::Receiver,
};

const PROPERTY_RETURN: TypeSlot = TypeSlot {
    inline: PROPERTY_RETURN_TYPE,
    indexed: PROPERTY_RETURN_TYPE_ID,
    role: Role::Return,
};

const UNDERLYING: TypeSlot = TypeSlot {
    inline: TYPE_ALIAS_UNDERLYING_TYPE,
    indexed: TYPE_ALIAS_UNDERLYING_TYPE_ID,
    role: Role::Underlying,
};

const EXPANDED: TypeSlot = TypeSlot {
    inline: TYPE_ALIAS_EXPANDED_TYPE,
    indexed: TYPE_ALIAS_EXPANDED_TYPE_ID,
    role: Role::Expanded,
};

// A signature, in its own message: its name, and its descriptor where there is a name, of its own or to fall back to.
fn mark_signature(msg: Located<'_>, falls_back: bool, context: &Context<'_>, used: &mut [u8])
    ensures { SignatureMarked (lent context.now) msg.entry.base msg.entry.bytes.now falls_back used.old used.new }
{
    mark_name(msg, JVM_METHOD_SIGNATURE_NAME, context, used);
    if falls_back || name_in(msg, JVM_METHOD_SIGNATURE_NAME, context).is_some() {
        mark_name(msg, JVM_METHOD_SIGNATURE_DESC, context, used);
    }
}

// The signature in a field, if it is there.
fn mark_signature_in(
    msg: Located<'_>,
    number: u32,
    falls_back: bool,
    context: &Context<'_>,
    used: &mut [u8],
)
    ensures { SignatureInMarked (lent context.now) msg.entry.base msg.entry.bytes.now number falls_back used.old used.new }
{
    if let Some(inner) = bytes(msg, number) {
        mark_signature(msg.part(inner), falls_back, context, used);
    }
}

// The backing field in a property's signature message: both its name and its descriptor. A broken message is no field.
fn mark_field_in(msg: Located<'_>, context: &Context<'_>, used: &mut [u8])
    ensures { MarksIn (lent context.now) msg.entry.base msg.entry.bytes.now field_in used.old used.new }
{
    let field = message(msg, JVM_PROPERTY_SIGNATURE_FIELD).unwrap_or(None);
    if let Some(inner) = field {
        let part = msg.part(inner);
        mark_name(part, JVM_METHOD_SIGNATURE_NAME, context, used);
        mark_name(part, JVM_METHOD_SIGNATURE_DESC, context, used);
    }
}

// The backing field of a property, in its own message.
fn mark_field(msg: Located<'_>, context: &Context<'_>, used: &mut [u8])
    ensures { FieldMarked (lent context.now) msg.entry.base msg.entry.bytes.now used.old used.new }
{
    if let Some(inner) = bytes(msg, PROPERTY_PROPERTY_SIGNATURE) {
        mark_field_in(msg.part(inner), context, used);
    }
}

// An accessor of a property, in the property's message. Its name falls back to none.
fn mark_accessor(msg: Located<'_>, number: u32, context: &Context<'_>, used: &mut [u8])
    ensures { AccessorMarked (lent context.now) msg.entry.base msg.entry.bytes.now number used.old used.new }
{
    if let Some(inner) = bytes(msg, PROPERTY_PROPERTY_SIGNATURE) {
        mark_signature_in(msg.part(inner), number, false, context, used);
    }
}

fn mark_parameter(msg: Located<'_>, context: &Context<'_>, used: &mut [u8])
    ensures { MarksIn (lent context.now) msg.entry.base msg.entry.bytes.now parameter_in used.old used.new }
{
    mark_name(msg, VALUE_PARAMETER_NAME, context, used);
    mark_declared(msg, PARAMETER, context, used);
    mark_declared(msg, VARARG_ELEMENT, context, used);
}

// The parameters in a field.
fn mark_parameters(msg: Located<'_>, number: u32, context: &Context<'_>, used: &mut [u8])
    ensures { MarksIn (lent context.now) msg.entry.base msg.entry.bytes.now (λ c. parameters_in c number) used.old used.new }
{
    for parameter in bodies_from(msg, number, 0) {
        mark_parameter(msg.part(parameter), context, used);
    }
}

fn mark_constructor(msg: Located<'_>, context: &Context<'_>, used: &mut [u8])
    ensures { MarksIn (lent context.now) msg.entry.base msg.entry.bytes.now constructor_in used.old used.new }
{
    mark_parameters(msg, CONSTRUCTOR_VALUE_PARAMETER, context, used);
    mark_signature_in(msg, CONSTRUCTOR_CONSTRUCTOR_SIGNATURE, true, context, used);
}

// A function. Nothing is looked up inside one that has no name, here and below.
fn mark_function(msg: Located<'_>, context: &Context<'_>, used: &mut [u8])
    ensures { MarksIn (lent context.now) msg.entry.base msg.entry.bytes.now function_in used.old used.new }
{
    mark_name(msg, FUNCTION_NAME, context, used);
    let Some(_) = name_in(msg, FUNCTION_NAME, context) else {
        return;
    };
    mark_parameters(msg, FUNCTION_VALUE_PARAMETER, context, used);
    mark_declared(msg, FUNCTION_RECEIVER, context, used);
    mark_signature_in(msg, FUNCTION_METHOD_SIGNATURE, true, context, used);
    mark_declared(msg, FUNCTION_RETURN, context, used);
}

fn mark_property(msg: Located<'_>, context: &Context<'_>, used: &mut [u8])
    ensures { MarksIn (lent context.now) msg.entry.base msg.entry.bytes.now property_in used.old used.new }
{
    mark_name(msg, PROPERTY_NAME, context, used);
    let Some(_) = name_in(msg, PROPERTY_NAME, context) else {
        return;
    };
    mark_field(msg, context, used);
    mark_declared(msg, PROPERTY_RECEIVER, context, used);
    mark_accessor(msg, JVM_PROPERTY_SIGNATURE_GETTER, context, used);
    mark_accessor(msg, JVM_PROPERTY_SIGNATURE_SETTER, context, used);
    mark_declared(msg, PROPERTY_RETURN, context, used);
}

fn mark_alias(msg: Located<'_>, context: &Context<'_>, used: &mut [u8])
    ensures { MarksIn (lent context.now) msg.entry.base msg.entry.bytes.now alias_in used.old used.new }
{
    mark_name(msg, TYPE_ALIAS_NAME, context, used);
    let Some(_) = name_in(msg, TYPE_ALIAS_NAME, context) else {
        return;
    };
    mark_declared(msg, UNDERLYING, context, used);
    mark_declared(msg, EXPANDED, context, used);
}

// One member.
fn mark_member(member: Member, msg: Located<'_>, context: &Context<'_>, used: &mut [u8])
    ensures { MarksIn (lent context.now) msg.entry.base msg.entry.bytes.now (member_in member) used.old used.new }
{
    match member {
        Member::Constructor => mark_constructor(msg, context, used),
        Member::Function => mark_function(msg, context, used),
        Member::Property => mark_property(msg, context, used),
        Member::Alias => mark_alias(msg, context, used),
    }
}

// The members of a list.
pub(crate) fn mark_members(
    list: MemberList,
    msg: Located<'_>,
    context: &Context<'_>,
    used: &mut [u8],
)
    ensures { MarksIn (lent context.now) msg.entry.base msg.entry.bytes.now (λ c. list_in (member_in list.member c) list.number) used.old used.new }
{
    for body in bodies_from(msg, list.number, 0) {
        mark_member(list.member, msg.part(body), context, used);
    }
}
