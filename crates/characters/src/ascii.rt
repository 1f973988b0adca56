// Texts of characters below 128, which most names are: one byte each in UTF-8, so that they are tested and written in plain loops.
ghost use Rattle.std.specs.Prelude.{◌≡◌, true, map, ◌+◌, ◌≤◌, length};
ghost use Rattle.std.proofs.lemmas.List.Edits.{sets};
ghost use Rattle.characters.specs.told.Plain.{instead, with_dots, is_ascii, shown};

// Is every unit below 128? The fold has no way out, so that the machine tests many at once.
pub fn ascii_units(units: &[u16]) -> bool
    ensures { result ≡ is_ascii units.now }
{
    units.iter().fold(0, |all, unit| all | *unit) < 128
}

// Is every byte below 128? One function for both would need a trait with `|`, `<` and their laws for both types: longer than this second line.
pub fn ascii_bytes(s: &[u8]) -> bool
    ensures { result ≡ is_ascii s.now }
{
    s.iter().fold(0, |all, byte| all | *byte) < 128
}

// `instead`, `with_dots` and `shown` are of bytes what names::name has of 32-bit characters: for both at once they would need a trait with the literals.
fn instead(from: u8, to: u8, c: u8) -> u8
    ensures { result ≡ instead from to c }
{
    if c == from { to } else { c }
}

fn with_dots(dots: bool, c: u8) -> u8
    ensures { result ≡ with_dots dots c }
{
    if dots {
        return instead(0x2f, 0x2e, instead(0x24, 0x2e, c));
    }
    c
}

// A character below 128, if none is replaced.
fn shown(dots: bool, slashes: bool, c: u8) -> u8
    ensures { result ≡ shown dots slashes c }
{
    if slashes {
        return instead(0x2e, 0x2f, with_dots(dots, c));
    }
    with_dots(dots, c)
}

// Units below 128, where there is room for all of them. No unit is tested.
// The two flags are no struct here: the one that has them, names::name::Change, stands in a crate above and holds a replaced character too.
// Callers show that they are below 128 and fit the area: names::stream tests both once, before the call.
pub fn copy_units(units: &[u16], dots: bool, slashes: bool, area: &mut [u8], at: usize)
    requires { (is_ascii units.now ≡ true) × (at + length units.now ≤ length area.old) }
    ensures { area.new ≡ sets area.old at (map (shown dots slashes) units.now) }
{
    for (i, unit) in units.iter().enumerate() {
        area[at + i] = shown(dots, slashes, *unit as u8);
    }
}

// Bytes below 128, where there is room for all of them. No byte is tested. One function for units and bytes would need a trait that says how an
// element below 128 becomes a byte, with a law of it for both types: longer than this second loop.
// Callers show that they are below 128 and fit the area: names::stream tests both once, before the call.
pub fn copy_bytes(s: &[u8], dots: bool, slashes: bool, area: &mut [u8], at: usize)
    requires { (is_ascii s.now ≡ true) × (at + length s.now ≤ length area.old) }
    ensures { area.new ≡ sets area.old at (map (shown dots slashes) s.now) }
{
    for (i, byte) in s.iter().enumerate() {
        area[at + i] = shown(dots, slashes, *byte);
    }
}
