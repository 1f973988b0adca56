// Writing into a lent area. What would go past the area's end is left out and changes nothing else, so that an area of length 0 serves to measure.
// A place may lie past its area's end, where no slice begins: so each function takes the whole area and a place, and no slice from the place on.
// In the contracts `sets l i vs` is the list l with vs written over it from place i on.
#![tactic(auto)]

ghost use Rattle.std.specs.Prelude.{◌≡◌, ◌+◌, ◌≤◌, length};
ghost use Rattle.std.proofs.lemmas.List.Edits.{sets};
ghost use Rattle.foundation.specs.Digits.{little};
ghost use Rattle.sheet.specs.Rows.{one_if, present_bytes, absent_bytes};

use foundation::put;

// How far a sheet is written: the places after the last record and the last text, and how many types may still be entered.
#[derive(Clone, Copy)]
pub struct State {
    pub sheet: usize,
    pub text: usize,
    pub types: usize,
}

// The two areas that are written into, and how far.
#[derive(Drop)]
pub struct Output<'a> {
    pub sheet: &'a mut [u8],
    pub text: &'a mut [u8],
    pub state: State,
}

// A number in `width` bytes, the lowest first.
pub fn put_number(area: &mut [u8], at: usize, width: usize, n: u64)
    ensures { area.new ≡ sets area.old at (little width n) }
{
    if area.len() <= at {
        return;
    }
    let end = at + width.min(area.len() - at);
    let mut rest = n;
    for i in at..end {
        area[i] = (rest % 256) as u8;
        rest /= 256;
    }
}

// All of `src`, where there is room for it.
// A loop, and no `copy_from_slice`: that is `memmove`, which the archive for C would ask whoever links it for.
fn copy_in(area: &mut [u8], at: usize, src: &[u8])
    requires { at + length src.now ≤ length area.old }
    ensures { area.new ≡ sets area.old at src.now }
{
    for (i, byte) in src.iter().enumerate() {
        area[at + i] = *byte;
    }
}

// All of `src`, or what there is room for.
pub fn put_all(area: &mut [u8], at: usize, src: &[u8])
    ensures { area.new ≡ sets area.old at src.now }
{
    if area.len() <= at {
        return;
    }
    let size = src.len().min(area.len() - at);
    copy_in(area, at, &src[..size]);
}

// A cell that is 0 or 1.
pub fn put_bit(area: &mut [u8], at: usize, on: bool)
    ensures { area.new ≡ sets area.old at (little 1 (one_if on)) }
{
    put(area, at, u8::from(on));
}

// A ref to a text: its offset and its length in the text area, two bytes each.
pub fn put_ref(area: &mut [u8], at: usize, offset: u64, size: u64)
    ensures { area.new ≡ sets area.old at (present_bytes offset size) }
{
    put_number(area, at, 4, offset % 65536 + 65536 * (size % 65536));
}

// A ref to no text.
pub fn put_absent(area: &mut [u8], at: usize)
    ensures { area.new ≡ sets area.old at absent_bytes }
{
    put_number(area, at, 4, 4294967295);
}
