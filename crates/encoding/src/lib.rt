// From d1's units to bytes, into a lent area. The definitions: specs/Encoding.antt, specs/told/Outcome.antt.
#![tactic(auto)]

ghost use Rattle.std.specs.Prelude.{◌≡◌, true, ◌*◌, ◌/◌, ◌≤◌, length};
ghost use Rattle.std.proofs.Math.Option.{none};
ghost use Rattle.std.proofs.lemmas.List.Edits.{sets};
ghost use Rattle.encoding.specs.Encoding.{low_seven, unpacked, first_above255};
ghost use Rattle.encoding.specs.told.Outcome.{above_of, limited, DecodeTold};

use std::error::Error;
use std::fmt;

// Above it d1 is refused, and so is d2: `unit_limit`.
pub const UNIT_LIMIT: usize = 32768;

// The first unit of the form whose other units are the bytes.
pub const BYTE_STRING_MARKER: u16 = 0;

// Why there are no bytes of d1.
#[derive(Clone, Copy, Debug, PartialEq, Eq)]
pub enum DecodeError {
    TooLong,
    Empty,
    NotAByte { unit: u16 },
    // The area is shorter than the bytes.
    NoRoom,
}

impl fmt::Display for DecodeError {
    fn fmt<W: fmt::Write>(&self, f: &mut fmt::Formatter<W>) -> fmt::Result {
        match self {
            DecodeError::TooLong => write!(f, "more units than d1 may have"),
            DecodeError::Empty => write!(f, "no unit"),
            DecodeError::NotAByte { unit } => write!(f, "the unit {unit} is above 255"),
            DecodeError::NoRoom => write!(f, "the area is shorter than the bytes"),
        }
    }
}

impl Error for DecodeError {}

// Are all units bytes? The fold has no way out, so that the machine tests many at once. characters' `ascii_units` is the same line with another limit:
// one function for both would ask for a limit that is a power of two, and be proved for each such limit.
fn all_bytes(units: &[u16]) -> bool
    ensures { result ≡ true → first_above255 units.now ≡ none }
{
    units.iter().fold(0, |all, unit| all | *unit) < 256
}

// The first, in order, of the units above 255.
pub fn first_above_255(units: &[u16]) -> Option<u16>
    ensures { result ≡ above_of (first_above255 units.now) }
{
    if all_bytes(units) {
        return None;
    }
    units.iter().copied().find(|unit| 255 < *unit)
}

// Units that are bytes, to the area's front.
fn copy_bytes(units: &[u16], area: &mut [u8])
    requires { (first_above255 units.now ≡ none) × (length units.now ≤ length area.old) }
    ensures { area.new ≡ sets area.old 0 units.now }
{
    for (i, unit) in units.iter().enumerate() {
        area[i] = *unit as u8;
    }
}

// What a unit of the old form carries.
fn low_seven(unit: u16) -> u32
    ensures { result ≡ low_seven unit }
{
    (u32::from(unit) + 127) % 128
}

// The old form's bytes, to the area's front. `buffer` holds the bits taken and not yet written: it is below `scale`, 2 to their number.
// The place `at` is counted beside the loop, since it goes up less often than the units, seven bytes for eight of them; `area.iter_mut()` would add an
// arm for an area that ends too early, which is none here.
// Callers show that the area has room: `decode` has tested it, `converter::old_to_new` has an area for as many as the limit allows.
pub fn unpack(units: &[u16], area: &mut [u8])
    requires { 7 * length units.now / 8 ≤ length area.old }
    ensures { area.new ≡ sets area.old 0 (unpacked units.now) }
{
    let mut buffer: u32 = 0;
    let mut scale: u32 = 1;
    let mut at = 0;
    for unit in units {
        let taken = buffer + low_seven(*unit) * scale;
        if scale == 1 {
            buffer = taken;
            scale = 128;
            continue;
        }
        area[at] = (taken % 256) as u8;
        at += 1;
        buffer = taken / 256;
        scale /= 2;
    }
}

// The bytes of d1, at the area's front: how many. An error leaves the area untouched.
pub fn decode(d1: &[u16], area: &mut [u8]) -> Result<usize, DecodeError>
    ensures { DecodeTold (limited d1.now) area.old area.new result }
{
    if UNIT_LIMIT < d1.len() {
        return Err(DecodeError::TooLong);
    }
    if d1.is_empty() {
        return Err(DecodeError::Empty);
    }
    if let Some(unit) = first_above_255(d1) {
        return Err(DecodeError::NotAByte { unit });
    }
    if d1[0] == BYTE_STRING_MARKER {
        let bytes = &d1[1..];
        if area.len() < bytes.len() {
            return Err(DecodeError::NoRoom);
        }
        copy_bytes(bytes, area);
        return Ok(bytes.len());
    }
    let length = 7 * d1.len() / 8;
    if area.len() < length {
        return Err(DecodeError::NoRoom);
    }
    unpack(d1, area);
    Ok(length)
}
