// An argument's own fields by one walk of its message. What is told: specs/told/ArgumentTold.antt.
ghost use Rattle.std.specs.Prelude.{◌≡◌};
ghost use Rattle.messages.specs.told.Asked.{number_told, number_in};
ghost use Rattle.schema.specs.Types.{projection_of};
ghost use Rattle.schema.specs.told.ArgumentTold.{projection_number, ArgumentHeadTold};

use fields::{TYPE_ARGUMENT_PROJECTION, TYPE_ARGUMENT_TYPE, TYPE_ARGUMENT_TYPE_ID};
use foundation::{Located, Span};
use messages::{find_each, index_in, number_in, piece_in};
use wire::WireValue;

// How a type stands in another. A type that is no argument is invariant.
#[derive(Clone, Copy)]
pub enum Projection {
    In = 0,
    Out = 1,
    Invariant = 2,
    Star = 3,
}

impl Projection {
    // Its number in metadata.proto and on the sheet.
    pub fn number(self) -> u8
        ensures { result ≡ projection_number self }
    {
        self as u8
    }
}

// A star; or a projection, and the type inline, in a part of the argument's message, or by its index; or no type.
// No type is a fourth kind here, and no `None`: those who read an argument match all four at once.
#[derive(Clone, Copy)]
pub enum ArgumentHead {
    Star,
    Inline { projection: Projection, body: Span },
    ByIndex { projection: Projection, index: u32 },
    Nothing,
}

// What is none of the four numbers is invariant. No `From`: the field may be absent too.
fn projection_of(found: Option<WireValue>) -> Projection
    ensures { projection_number result ≡ projection_of (number_told (number_in found)) }
{
    let Some(number) = number_in(found) else {
        return Projection::Invariant;
    };
    match number {
        0 => Projection::In,
        1 => Projection::Out,
        3 => Projection::Star,
        _ => Projection::Invariant,
    }
}

// The argument in a message that is cut. The type of a star is not asked for.
pub fn argument_head(msg: Located<'_>) -> ArgumentHead
    ensures { ArgumentHeadTold msg.entry.base msg.entry.bytes.now result }
{
    let [projection, inline, indexed] = find_each(
        msg,
        [
            TYPE_ARGUMENT_PROJECTION,
            TYPE_ARGUMENT_TYPE,
            TYPE_ARGUMENT_TYPE_ID,
        ],
    );
    let projection = projection_of(projection);
    if let Projection::Star = projection {
        return ArgumentHead::Star;
    }
    if let Some(body) = piece_in(inline) {
        return ArgumentHead::Inline { projection, body };
    }
    match index_in(indexed) {
        Some(index) => ArgumentHead::ByIndex { projection, index },
        None => ArgumentHead::Nothing,
    }
}
