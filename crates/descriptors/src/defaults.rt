// Default descriptors: the parts of a declaration's types, one after the other. The definitions: specs/Defaults.antt; what the writers
// tell: specs/told/DefaultsTold.antt and specs/told/PartsTold.antt.
ghost use Rattle.std.specs.Prelude.{◌≡◌, ◌∷◌, ◌++◌, ◌+◌, ◌*◌, ◌^◌, ◌≤◌, length};
ghost use Rattle.foundation.specs.told.Located.{told_part};
ghost use Rattle.foundation.specs.Results.{ok};
ghost use Rattle.fields.specs.Fields.{Function-flags};
ghost use Rattle.wire.specs.Wire.{Message, cut};
ghost use Rattle.schema.specs.Members.{bit_of, flags_in};
ghost use Rattle.schema.specs.told.SchemaTold.{lent};
ghost use Rattle.erasure.specs.Erasure.{print};
ghost use Rattle.erasure.specs.told.ErasureTold.{PutSized};
ghost use Rattle.descriptors.specs.Defaults.{continuation_class, object};
ghost use Rattle.descriptors.specs.told.DefaultsTold.{part_cost, ParametersTold, ConstructorDefault, FunctionDefault};
ghost use Rattle.descriptors.specs.told.PartsTold.{PartRoom, PartOf, TypeGiven, type_part, FunctionGiven, receiver_part, before_part, after_part};

use crate::erased::{Placement, put_erased};
use crate::slots::{FUNCTION_RECEIVER, FUNCTION_RETURN, PARAMETER};
use erasure::{Class, Part, Position, put_part};
use fields::{
    CONSTRUCTOR_VALUE_PARAMETER, FUNCTION_FLAGS, FUNCTION_VALUE_PARAMETER, OMITTED_FLAGS,
};
use foundation::{Context, Located, put};
use messages::bodies_from;
use schema::TypeSlot;
use schema::flags::{bit_of, flags_in};
use schema::places::declared_place;
use schema::receiver::has_receiver;
use sheet::put_all;

// A declaration's own type at its position. A type that isn't there has no descriptor. The slot's role is not looked at.
// `msg` and `context`, `area` and `at` are no structs: each call would make one anew, since message and place change, and each function take it apart.
// `PartRoom` is no invariant of Context or Located: its last part bounds the place by what this call may write, and their other users have no such place.
fn type_part(
    msg: Located<'_>,
    slot: TypeSlot,
    position: Position,
    context: &Context<'_>,
    area: &mut [u8],
    at: usize,
) -> Option<usize>
    requires { PartRoom (lent context.now) msg.bytes.now msg.base part_cost at }
    ensures { PartOf (TypeGiven slot.inline slot.indexed) (type_part position) part_cost (lent context.now) msg.entry.base (msg.entry.base + length msg.entry.bytes.now) at result area.old area.new }
{
    let found = declared_place(msg, slot, context)?;
    let placed = Placement {
        reached: found.reached,
        in_table: found.is_entry,
        position,
    };
    put_erased(found.part, placed, context, area, at)
}

// The parts of the parameters in a field, one after the other: one of each message, with a name or without.
fn parameter_parts(
    msg: Located<'_>,
    number: u32,
    context: &Context<'_>,
    area: &mut [u8],
    at: usize,
) -> Option<usize>
    requires { PartRoom (lent context.now) msg.bytes.now msg.base (part_cost * length msg.bytes.now) at }
    ensures { ParametersTold (lent context.now) msg.entry.base (msg.entry.base + length msg.entry.bytes.now) number at result area.old area.new }
{
    let mut size = 0;
    for parameter in bodies_from(msg, number, 0) {
        size += type_part(
            msg.part(parameter),
            PARAMETER,
            Position::Parameter,
            context,
            area,
            at + size,
        )?;
    }
    Some(size)
}

// The default descriptor of a constructor, which returns V.
// Callers show `PartRoom`: members::closed from the `Affords` and `Stands` that it requires.
pub fn constructor_default(
    msg: Located<'_>,
    context: &Context<'_>,
    area: &mut [u8],
    at: usize,
) -> Option<usize>
    requires { PartRoom (lent context.now) msg.bytes.now msg.base (part_cost * (4 + length msg.bytes.now)) at }
    ensures { ConstructorDefault (lent context.now) msg.entry.base (msg.entry.base + length msg.entry.bytes.now) at result area.old area.new }
{
    put(area, at, b'(');
    let size = parameter_parts(msg, CONSTRUCTOR_VALUE_PARAMETER, context, area, at + 1)?;
    put_all(area, at + 1 + size, b")V");
    Some(3 + size)
}

// The receiver's part. Without a receiver there is no text.
fn receiver_part(
    msg: Located<'_>,
    context: &Context<'_>,
    area: &mut [u8],
    at: usize,
) -> Option<usize>
    requires { PartRoom (lent context.now) msg.bytes.now msg.base part_cost at }
    ensures { PartOf FunctionGiven receiver_part part_cost (lent context.now) msg.entry.base (msg.entry.base + length msg.entry.bytes.now) at result area.old area.new }
{
    if has_receiver(msg, FUNCTION_RECEIVER) {
        return type_part(
            msg,
            FUNCTION_RECEIVER,
            Position::Parameter,
            context,
            area,
            at,
        );
    }
    Some(0)
}

// The parts of the types before the return: the receiver's and the parameters'.
fn before_part(msg: Located<'_>, context: &Context<'_>, area: &mut [u8], at: usize) -> Option<usize>
    requires { PartRoom (lent context.now) msg.bytes.now msg.base (part_cost * (1 + length msg.bytes.now)) at }
    ensures { PartOf FunctionGiven before_part (part_cost * (1 + length msg.entry.bytes.now)) (lent context.now) msg.entry.base (msg.entry.base + length msg.entry.bytes.now) at result area.old area.new }
{
    let receiver = receiver_part(msg, context, area, at)?;
    let parameters = parameter_parts(msg, FUNCTION_VALUE_PARAMETER, context, area, at + receiver)?;
    Some(receiver + parameters)
}

// Does a function suspend? Bit 13 of its flags.
fn suspends(msg: Located<'_>) -> bool
    ensures { (m : Message) → cut (told_part msg.entry) ≡ ok m → bit_of 13 (flags_in Function-flags m) ≡ result }
{
    let flags = flags_in(msg, FUNCTION_FLAGS, OMITTED_FLAGS);
    bit_of(flags, 13)
}

// What a suspending function has after its parameters: a continuation, ), and Object.
fn put_suspended(area: &mut [u8], at: usize) -> usize
    requires { at ≤ 2 ^ 61 }
    ensures { PutSized (print continuation_class ++ (0x29 ∷ print object)) at result area.old area.new }
{
    let first = put_part(area, at, Part::Continuation);
    put(area, at + first, b')');
    let last = put_part(area, at + first + 1, Part::Class(Class::Object));
    first + 1 + last
}

// What stands after the parameters: ) and the return's part; a suspending function's continuation before it.
fn after_part(msg: Located<'_>, context: &Context<'_>, area: &mut [u8], at: usize) -> Option<usize>
    requires { PartRoom (lent context.now) msg.bytes.now msg.base (part_cost * 2) at }
    ensures { PartOf FunctionGiven after_part (part_cost * 2) (lent context.now) msg.entry.base (msg.entry.base + length msg.entry.bytes.now) at result area.old area.new }
{
    if suspends(msg) {
        return Some(put_suspended(area, at));
    }
    put(area, at, b')');
    let returned = type_part(
        msg,
        FUNCTION_RETURN,
        Position::Return,
        context,
        area,
        at + 1,
    )?;
    Some(1 + returned)
}

// The default descriptor of a function.
// Callers show `PartRoom`: members::closed from the `Affords` and `Stands` that it requires.
pub fn function_default(
    msg: Located<'_>,
    context: &Context<'_>,
    area: &mut [u8],
    at: usize,
) -> Option<usize>
    requires { PartRoom (lent context.now) msg.bytes.now msg.base (part_cost * (4 + length msg.bytes.now)) at }
    ensures { FunctionDefault (lent context.now) msg.entry.base (msg.entry.base + length msg.entry.bytes.now) at result area.old area.new }
{
    put(area, at, b'(');
    let before = before_part(msg, context, area, at + 1)?;
    let after = after_part(msg, context, area, at + 1 + before)?;
    Some(1 + before + after)
}
