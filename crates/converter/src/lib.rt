// d1 from its old form to the form with the marker, and back, into a lent area of units. The definitions: specs/Conversions.antt; how the
// answers tell them: specs/told/ConversionTold.antt.
#![tactic(auto)]

ghost use Rattle.std.specs.Prelude.{◌≡◌, ◌∷◌, ◌≤◌, length};
ghost use Rattle.std.proofs.Math.Option.{none};
ghost use Rattle.std.proofs.lemmas.List.Edits.{sets};
ghost use Rattle.encoding.specs.Encoding.{unit_limit, byte_string_marker, first_above255};
ghost use Rattle.converter.specs.Conversions.{old_units, carrying, fault_number, fault_detail, old_fault, new_fault, old_to_new, new_to_old};
ghost use Rattle.converter.specs.told.ConversionTold.{cause_of, size_fault, byte_fault, checked_told, converted_by};

use encoding::{BYTE_STRING_MARKER, UNIT_LIMIT, first_above_255, unpack};
use foundation::put;
use std::error::Error;
use std::fmt;

// Why d1 isn't converted.
#[derive(Clone, Copy, Debug, PartialEq, Eq)]
pub enum ConvertFault {
    TooManyUnits,
    // No unit, or from new to old the marker alone.
    NothingThere,
    // The marker from old to new, none from new to old.
    WrongForm,
    NotAByte { unit: u16 },
    // From new to old: the first unit would be the marker.
    FirstUnitZero,
    // The area is shorter than the units.
    NoRoom,
}

impl ConvertFault {
    // The refusal's number, and its detail.
    pub fn numbered(self) -> (u64, u64)
        ensures { result ≡ (fault_number (cause_of self), fault_detail (cause_of self)) }
    {
        match self {
            ConvertFault::TooManyUnits => (1, 0),
            ConvertFault::NothingThere => (5, 0),
            ConvertFault::WrongForm => (15, 0),
            ConvertFault::NotAByte { unit } => (6, u64::from(unit)),
            ConvertFault::FirstUnitZero => (16, 0),
            ConvertFault::NoRoom => (12, 0),
        }
    }
}

impl fmt::Display for ConvertFault {
    fn fmt<W: fmt::Write>(&self, f: &mut fmt::Formatter<W>) -> fmt::Result {
        match self {
            ConvertFault::TooManyUnits => write!(f, "more units than d1 may have"),
            ConvertFault::NothingThere => write!(f, "nothing to convert"),
            ConvertFault::WrongForm => write!(f, "the other form"),
            ConvertFault::NotAByte { unit } => write!(f, "the unit {unit} is above 255"),
            ConvertFault::FirstUnitZero => write!(f, "the first unit would be the marker"),
            ConvertFault::NoRoom => write!(f, "the area is shorter than the units"),
        }
    }
}

impl Error for ConvertFault {}

// Refusals 1 and 5: as many units as d1 may have, and one at least.
fn some_units(d1: &[u16]) -> Result<(), ConvertFault>
    ensures { size_fault d1.now ≡ checked_told result }
{
    if UNIT_LIMIT < d1.len() {
        return Err(ConvertFault::TooManyUnits);
    }
    if d1.is_empty() {
        return Err(ConvertFault::NothingThere);
    }
    Ok(())
}

// Refusal 6: the first, in order, of the units above 255.
fn only_bytes(d1: &[u16]) -> Result<(), ConvertFault>
    ensures { byte_fault d1.now ≡ checked_told result }
{
    match first_above_255(d1) {
        Some(unit) => Err(ConvertFault::NotAByte { unit }),
        None => Ok(()),
    }
}

// Refusals 1, 5, 15 and 6, in this order.
fn old_fault(d1: &[u16]) -> Result<(), ConvertFault>
    ensures { old_fault d1.now ≡ checked_told result }
{
    some_units(d1)?;
    if d1[0] == BYTE_STRING_MARKER {
        return Err(ConvertFault::WrongForm);
    }
    only_bytes(d1)
}

// Refusals 1, 5, 15, 6 and 16, in this order. The first unit would be 0 if the first byte's low 7 bits are all ones.
fn new_fault(d1: &[u16]) -> Result<(), ConvertFault>
    ensures { new_fault d1.now ≡ checked_told result }
{
    some_units(d1)?;
    if d1[0] != BYTE_STRING_MARKER {
        return Err(ConvertFault::WrongForm);
    }
    if d1.len() == 1 {
        return Err(ConvertFault::NothingThere);
    }
    only_bytes(d1)?;
    if d1[1] % 128 == 127 {
        return Err(ConvertFault::FirstUnitZero);
    }
    Ok(())
}

// The marker and some bytes, one a unit, to the area's front.
fn put_marked(units: &mut [u16], bytes: &[u8])
    ensures { units.new ≡ sets units.old 0 (byte_string_marker ∷ bytes.now) }
{
    put(units, 0, BYTE_STRING_MARKER);
    for (i, byte) in bytes.iter().enumerate() {
        put(units, i + 1, u16::from(*byte));
    }
}

// The unit that carries a group of 7 bits.
fn carrying_unit(group: u32) -> u16
    ensures { result ≡ carrying group }
{
    ((group % 128 + 1) % 128) as u16
}

// The old form of bytes, to the area's front. `buffer` holds the bits taken and not yet written: it is below `scale`, 2 to their number.
// Past the last byte zeros are taken: they fill the last group.
fn pack(bytes: &[u16], units: &mut [u16])
    requires { (first_above255 bytes.now ≡ none) × (length bytes.now ≤ unit_limit) }
    ensures { units.new ≡ sets units.old 0 (old_units bytes.now) }
{
    let mut buffer: u32 = 0;
    let mut scale: u32 = 1;
    let mut rest = bytes.iter();
    for at in 0..(8 * bytes.len() + 6) / 7 {
        if scale == 128 {
            put(units, at, carrying_unit(buffer));
            buffer = 0;
            scale = 1;
            continue;
        }
        let byte = rest.next().copied().unwrap_or(0);
        let taken = buffer + u32::from(byte) * scale;
        put(units, at, carrying_unit(taken % 128));
        buffer = taken / 128;
        scale *= 2;
    }
}

// An old d1 with its marker, at the area's front: how many units. An error leaves the area untouched.
pub fn old_to_new(d1: &[u16], units: &mut [u16]) -> Result<usize, ConvertFault>
    ensures { old_to_new units.old d1.now ≡ converted_by result units.new }
{
    old_fault(d1)?;
    let size = 7 * d1.len() / 8;
    let length = size + 1;
    if units.len() < length {
        return Err(ConvertFault::NoRoom);
    }
    let mut bytes = [0u8; 28672];
    unpack(d1, &mut bytes);
    put_marked(units, &bytes[..size]);
    Ok(length)
}

// A d1 with its marker in the old form, at the area's front: how many units. An error leaves the area untouched.
pub fn new_to_old(d1: &[u16], units: &mut [u16]) -> Result<usize, ConvertFault>
    ensures { new_to_old units.old d1.now ≡ converted_by result units.new }
{
    new_fault(d1)?;
    let bytes = &d1[1..];
    let length = (8 * bytes.len() + 6) / 7;
    if units.len() < length {
        return Err(ConvertFault::NoRoom);
    }
    pack(bytes, units);
    Ok(length)
}
