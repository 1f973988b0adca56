// Names by the index in a field. The definitions: specs/Reading.antt, `name_in` and `class_name_in`.
ghost use Rattle.std.specs.Prelude.{◌≡◌, List, ℕ};
ghost use Rattle.foundation.specs.told.Located.{told_part};
ghost use Rattle.foundation.specs.Results.{ok};
ghost use Rattle.wire.specs.Wire.{cut, Message};
ghost use Rattle.wire.specs.Messages.{index};
ghost use Rattle.messages.specs.told.Asked.{index_told};
ghost use Rattle.names.specs.told.Name.{name_text};
ghost use Rattle.schema.specs.Reading.{Scope, name_in, class_name_in};
ghost use Rattle.schema.specs.told.SchemaTold.{NamesOf};

use foundation::{Context, Located};
use lookup::qualified::qualified_name;
use lookup::string;
use messages::index;
use names::name::Name;

// The string at the index in a field.
pub fn name_in(msg: Located<'_>, number: u32, context: &Context<'_>) -> Option<Name>
    ensures { (units : List ℕ) (s : Scope) → NamesOf context.now.payload.now units context.now.ends.now context.now.notes.now context.now.tables.records s.names → (m : Message) → cut (told_part msg.entry) ≡ ok m → (l : ℕ) → name_in s number m l ≡ ok (name_text context.now.payload.now units result, l) }
{
    string(context, index(msg, number)?)
}

// The class name at an index that was found in a field.
pub fn class_name_at(found: Option<u32>, context: &Context<'_>) -> Option<Name>
    ensures { (s : Scope) → NamesOf context.now.payload.now context.now.d2.now context.now.ends.now context.now.notes.now context.now.tables.records s.names → (k : ℕ) (m : Message) → index k m ≡ index_told found → (l : ℕ) → class_name_in s k m l ≡ ok (name_text context.now.payload.now context.now.d2.now result, l) }
{
    qualified_name(context, found?)
}

// The class name at the index in a field.
pub fn class_name_in(msg: Located<'_>, number: u32, context: &Context<'_>) -> Option<Name>
    ensures { (s : Scope) → NamesOf context.now.payload.now context.now.d2.now context.now.ends.now context.now.notes.now context.now.tables.records s.names → (m : Message) → cut (told_part msg.entry) ≡ ok m → (l : ℕ) → class_name_in s number m l ≡ ok (name_text context.now.payload.now context.now.d2.now result, l) }
{
    class_name_at(index(msg, number), context)
}
