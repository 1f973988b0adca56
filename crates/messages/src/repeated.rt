// Repeated numbers: single and packed values of a field, joined in order.
ghost use Rattle.std.specs.Prelude.{◌≡◌};
ghost use Rattle.foundation.specs.Results.{ok};
ghost use Rattle.foundation.specs.told.Located.{told_part};
ghost use Rattle.wire.specs.Wire.{cut, packed, Message};
ghost use Rattle.wire.specs.Messages.{varints_in, varints};
ghost use Rattle.wire.specs.told.WireTold.{value_of, Inside};
ghost use Rattle.messages.specs.told.Asked.{CheckedTold};
ghost use Rattle.messages.specs.told.Repeated.{pushed, pushed_to, first_two_of, two_told};

use foundation::Located;
use wire::{WireError, WireValue, fields_from, varint_at};

// The first two numbers of a list, mod 2^32, as far as it has them. The three states are those between which numbers are pushed. A record's
// step is taken at `Both` alone; an `Option` of a pair for it would be a second type beside this one.
#[derive(Clone, Copy)]
pub enum Two {
    Neither,
    One { first: u32 },
    Both { first: u32, second: u32 },
}

fn push(two: Two, value: u64) -> Two
    ensures { result ≡ pushed two value }
{
    // The higher bits are taken off first: Rattle asks of a cast that its value fits.
    let low = (value % 4294967296) as u32;
    match two {
        Two::Neither => Two::One { first: low },
        Two::One { first } => Two::Both { first, second: low },
        Two::Both { first, second } => Two::Both { first, second },
    }
}

// Adds the numbers of a packed run. A loop by hand: `wire` has no iterator over varints, and one for this place alone would be longer than the loop.
fn push_packed(run: Located<'_>, two: Two) -> Result<Two, WireError>
    ensures { pushed_to two (packed (told_part run.entry)) ≡ two_told result }
{
    let mut at = 0;
    let mut have = two;
    while at < run.bytes.len() {
        let read = varint_at(run, at)?;
        have = push(have, read.value);
        at = read.next;
    }
    Ok(have)
}

fn push_value(s: Located<'_>, value: WireValue, two: Two) -> Result<Two, WireError>
    requires { Inside s.bytes.now value }
    ensures { pushed_to two (varints_in (value_of s.entry.base s.entry.bytes.now value)) ≡ two_told result }
{
    match value {
        WireValue::Varint(number) => Ok(push(two, number)),
        WireValue::Fixed {
            width: _,
            number: _,
        } => Ok(two),
        WireValue::Body(body) => push_packed(s.part(body), two),
    }
}

// The first two numbers of a field. A number after them that can't be read refuses too.
pub fn first_two(s: Located<'_>, number: u32) -> Result<Two, WireError>
    ensures { (m : Message) → cut (told_part s.entry) ≡ ok m → first_two_of (varints number m) ≡ two_told result }
{
    let mut two = Two::Neither;
    for read in fields_from(s, [number], 0) {
        let Ok(field) = read else {
            return Ok(two);
        };
        if field.number == number {
            two = push_value(s, field.value, two)?;
        }
    }
    Ok(two)
}

// Tests that every number of a field can be read.
pub fn check_varints(s: Located<'_>, number: u32) -> Result<(), WireError>
    ensures { (m : Message) → cut (told_part s.entry) ≡ ok m → CheckedTold (varints number m) result }
{
    first_two(s, number)?;
    Ok(())
}
