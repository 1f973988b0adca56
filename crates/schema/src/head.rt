// A type's own fields by one walk of its message. What is told: specs/told/HeadTold.antt.
ghost use Rattle.std.specs.Prelude.{◌≡◌, List, [], ◌∷◌, ℕ};
ghost use Rattle.foundation.specs.told.Located.{told_part};
ghost use Rattle.foundation.specs.Results.{ok};
ghost use Rattle.fields.specs.Fields.{Type-argument, Type-nullable, Type-class_name};
ghost use Rattle.wire.specs.Wire.{field, Message, cut};
ghost use Rattle.wire.specs.Messages.{varint_of, index, flag};
ghost use Rattle.wire.specs.told.WireTold.{value_of, value_number};
ghost use Rattle.messages.specs.told.Asked.{number_told, index_told};
ghost use Rattle.schema.specs.told.HeadTold.{Known, HeadTold};

use fields::{TYPE_ARGUMENT, TYPE_CLASS_NAME, TYPE_NULLABLE};
use foundation::Located;
use messages::index_in;
use wire::{WireValue, field_at};

// The index of its class name, whether it says that it is nullable, and whether it has an argument.
#[derive(Clone, Copy)]
pub struct TypeHead {
    pub name: Option<u32>,
    pub nullable: bool,
    pub arguments: bool,
}

// What the fields before a place say. Of a class name and of a flag the first counts; `None` is one that was not seen.
#[derive(Clone, Copy)]
struct Seen {
    name: Option<Option<u32>>,
    nullable: Option<bool>,
    arguments: bool,
}

fn index_of(value: WireValue) -> Option<u32>
    ensures { (k : ℕ) (m : Message) → varint_of k m ≡ number_told (value_number value) → index k m ≡ index_told result }
{
    index_in(Some(value))
}

fn is_set(value: WireValue) -> bool
    ensures { (k : ℕ) (m : Message) → varint_of k m ≡ number_told (value_number value) → flag k m ≡ result }
{
    value.varint().is_some_and(|n| n != 0)
}

// A function for each field: each sets another part of what was seen, and has a contract of its own.
impl Seen {
    fn with_name(self, value: WireValue) -> Seen
        ensures { (base : ℕ) (s : List ℕ) (m rest : Message) → Known self m (field Type-class_name (value_of base s value) ∷ rest) → Known result m rest }
    {
        Seen {
            name: self.name.or(Some(index_of(value))),
            ..self
        }
    }

    fn with_flag(self, value: WireValue) -> Seen
        ensures { (base : ℕ) (s : List ℕ) (m rest : Message) → Known self m (field Type-nullable (value_of base s value) ∷ rest) → Known result m rest }
    {
        Seen {
            nullable: self.nullable.or(Some(is_set(value))),
            ..self
        }
    }

    fn with_argument(self, value: WireValue) -> Seen
        ensures { (base : ℕ) (s : List ℕ) (m rest : Message) → Known self m (field Type-argument (value_of base s value) ∷ rest) → Known result m rest }
    {
        let Some(_) = value.bytes() else {
            return self;
        };
        Seen {
            arguments: true,
            ..self
        }
    }

    fn with_field(self, number: u32, value: WireValue) -> Seen
        ensures { (base : ℕ) (s : List ℕ) (m rest : Message) → Known self m (field number (value_of base s value) ∷ rest) → Known result m rest }
    {
        match number {
            TYPE_ARGUMENT => self.with_argument(value),
            TYPE_NULLABLE => self.with_flag(value),
            TYPE_CLASS_NAME => self.with_name(value),
            _ => self,
        }
    }
}

// All fields of the message, one after the other. By `fields_from`, asked for the three, real classes take 4 % more instructions.
fn seen_in(msg: Located<'_>) -> Seen
    ensures { (m : Message) → cut (told_part msg.entry) ≡ ok m → Known result m [] }
{
    let mut seen = Seen {
        name: None,
        nullable: None,
        arguments: false,
    };
    let mut at = 0;
    while at < msg.bytes.len() {
        let Ok(read) = field_at(msg, at) else {
            return seen;
        };
        seen = seen.with_field(read.value.number, read.value.value);
        at = read.next;
    }
    seen
}

// The head of a message that is cut.
pub fn type_head(msg: Located<'_>) -> TypeHead
    ensures { HeadTold msg.entry.base msg.entry.bytes.now result }
{
    let seen = seen_in(msg);
    TypeHead {
        name: seen.name.flatten(),
        nullable: seen.nullable.unwrap_or(false),
        arguments: seen.arguments,
    }
}
