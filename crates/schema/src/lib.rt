// Declarations read from messages, in the specification's order. The definitions: specs/Types.antt, specs/Members.antt; how the answers
// tell them: specs/told/SchemaTold.antt.
#![tactic(auto)]

ghost use Rattle.std.specs.Prelude.{◌≡◌};
ghost use Rattle.schema.specs.declared.Stop.TheVariants.{Wire};

use declaration_rows::Role;
use foundation::Span;
use sheet::State;
use wire::WireError;

pub mod name; // name.rt: names by the index in a field
pub mod head; // head.rt: a type's own fields by one walk
pub mod argument; // argument.rt: an argument's own fields by one walk
pub mod table; // table.rt: where the entries of the type table stand
pub mod types; // types.rt: an entry of the type table, and whether it is nullable by its place
pub mod places; // places.rt: where the messages of types stand
pub mod flags; // flags.rt: flags in a field, and a bit of them
pub mod receiver; // receiver.rt: whether a receiver is there

// Look-ups at this depth or deeper yield no type: `max_depth`.
pub const MAX_DEPTH: usize = 64;

// How many types one class may have: `allowance`.
pub const ALLOWANCE: usize = 2048;

// The two fields of a message in which a type may stand, inline or by its index in the type table, and the type's role on the sheet.
#[derive(Clone, Copy)]
pub struct TypeSlot {
    pub inline: u32,
    pub indexed: u32,
    pub role: Role,
}

// Why a reading stops.
#[derive(Clone, Copy, Debug, PartialEq, Eq)]
pub enum Stop {
    Wire(WireError),
    TooManyTypes,
}

impl From<WireError> for Stop {
    ghost from_gives = { λ error stop. stop ≡ Wire error };

    fn from(error: WireError) -> Stop {
        Stop::Wire(error)
    }
}

// After a list: how far both areas are written, and how many of it are kept.
#[derive(Clone, Copy)]
pub struct Section {
    pub state: State,
    pub count: usize,
}

// How a type is reached: whether it is nullable by its place in the type table, and what is left of the depth there.
#[derive(Clone, Copy)]
pub struct Reached {
    pub nullable: bool,
    pub left: usize,
}

// Where the message of a type stands among the decoded bytes, how it is reached, and whether it is an entry of the type table. If not, it is inline in the
// message that was looked at.
#[derive(Clone, Copy)]
pub struct FoundType {
    pub part: Span,
    pub reached: Reached,
    pub is_entry: bool,
}
