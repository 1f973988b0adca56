// Flags in a field, and a bit of them. The definitions: specs/Members.antt, `flags_in`, `small_flags_in` and `bit_of`.
ghost use Rattle.std.specs.Prelude.{◌≡◌, ◌<◌};
ghost use Rattle.foundation.specs.told.Located.{told_part};
ghost use Rattle.foundation.specs.Choices.{if_some};
ghost use Rattle.foundation.specs.Results.{ok};
ghost use Rattle.wire.specs.Wire.{cut, Message};
ghost use Rattle.wire.specs.Messages.{varint_of};
ghost use Rattle.schema.specs.Members.{bit_of};

use foundation::Located;
use messages::varint;

// The flags in a field, or what they are if it is omitted.
pub fn flags_in(msg: Located<'_>, number: u32, omitted: u64) -> u64
    ensures { (m : Message) → cut (told_part msg.entry) ≡ ok m → if_some (varint_of number m) omitted (λ flags. flags) ≡ result }
{
    varint(msg, number).unwrap_or(omitted)
}

// Bit `number` of some flags, counted from 0.
// Callers show that flags have such a bit: members and descriptors by the number itself, which each of them writes.
pub fn bit_of(flags: u64, number: u32) -> bool
    requires { number < 64 }
    ensures { result ≡ bit_of number flags }
{
    (flags >> number) % 2 == 1
}
