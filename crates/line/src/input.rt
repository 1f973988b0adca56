// From the input's bytes to what the reader takes. The input may come in pieces: the counts are gathered from all of them, what they count
// is taken from the input's beginning.
ghost use Rattle.std.specs.Prelude.{◌≡◌, ◌+◌, ◌^◌, ◌<◌, min, length};
ghost use Rattle.std.proofs.lemmas.List.Edits.{sets};
ghost use Rattle.line.specs.Input.{number_at, numbers_at, signed_of, input_end};
ghost use Rattle.line.specs.told.Pieces.{byte_in, number_in_piece, counts_in, CountsFit};

// How many units of d1, units of d2 and string ends are announced.
#[derive(Clone, Copy, Default)]
pub struct Counts {
    pub d1: usize,
    pub d2: usize,
    pub ends: usize,
}

// The byte at a place of the input, 0 if the piece doesn't hold it.
// A piece and its base are no `Located`: that says that both together fit 64 bits, and these functions are asked of any base.
fn byte_in(piece: &[u8], base: usize, at: usize) -> usize
    ensures { (result ≡ byte_in piece.now base at) × (result < 256) }
{
    if at < base {
        return 0;
    }
    usize::from(piece.get(at - base).copied().unwrap_or(0))
}

// What the piece gives of a number in 2 bytes.
// Here and below a place is asked to be far below 2 ^ 64, so that the sums with it fit. Places of an input are, and a place has no type of its own.
fn two_in(piece: &[u8], base: usize, at: usize) -> usize
    requires { at < 2 ^ 60 }
    ensures { (result ≡ number_in_piece 2 piece.now base at) × (result < 65536) }
{
    byte_in(piece, base, at) + 256 * byte_in(piece, base, at + 1)
}

// What the piece gives of a number in 4 bytes.
// Callers show that the place can be added to: it is a written number, or a sum of counts of 4 bytes each.
pub fn four_in(piece: &[u8], base: usize, at: usize) -> usize
    requires { at < 2 ^ 50 }
    ensures { (result ≡ number_in_piece 4 piece.now base at) × (result < 2 ^ 32) }
{
    two_in(piece, base, at) + 65536 * two_in(piece, base, at + 2)
}

// The counts of the input up to this piece, from those up to the piece before, each a number of 4 bytes.
// `CountsFit` is asked for, and the counts are no `u32`: they are summed piece by piece, and that a sum still has 4 bytes is a fact of the whole input.
pub(crate) fn counts_in(piece: &[u8], base: usize, before: Counts) -> Counts
    requires { CountsFit before }
    ensures { result ≡ counts_in piece.now base before }
{
    let d1 = before.d1 + four_in(piece, base, 16);
    let d2 = before.d2 + four_in(piece, base, 20 + 2 * d1);
    let ends = before.ends + four_in(piece, base, 24 + 2 * d1 + 2 * d2);
    Counts { d1, d2, ends }
}

// The place after the input.
// Callers show that the counts are numbers of 4 bytes, so that it fits: answer_lines from what `take_input` tells of them.
pub fn input_end(counts: Counts) -> usize
    requires { CountsFit counts }
    ensures { result ≡ input_end counts }
{
    28 + 2 * counts.d1 + 2 * counts.d2 + 4 * counts.ends
}

// The signed number at a place. It is cast, here and below, as `two_in` and `four_in` tell that a number fits: `try_from` would add an arm that no
// input reaches.
// Callers show that the place can be added to: it is a written number.
pub fn signed_at(bytes: &[u8], at: usize) -> i32
    requires { at < 2 ^ 50 }
    ensures { result ≡ signed_of (number_at 4 bytes.now at) }
{
    let n = four_in(bytes, 0, at) as u32;
    n.cast_signed()
}

// Units from a place on, as many as are announced and have room.
// Callers show that the place is a sum of counts of 4 bytes each, and that their own array is short.
pub fn units_at(bytes: &[u8], at: usize, count: usize, units: &mut [u16]) -> usize
    requires { (at < 2 ^ 40) × (length units.old < 2 ^ 20) }
    ensures { (result ≡ min count (length units.old)) × (units.new ≡ sets units.old 0 (numbers_at 2 bytes.now at result)) }
{
    let size = count.min(units.len());
    for i in 0..size {
        units[i] = two_in(bytes, 0, at + 2 * i) as u16;
    }
    size
}

// String ends from a place on, as many as are announced and have room. Beside `units_at` it stands as it is: one function for both would take a
// trait with a number's width, how it is read and the law of both, which is longer than the two.
// Callers show that the place is a sum of counts of 4 bytes each, and that their own array is short.
pub fn ends_at(bytes: &[u8], at: usize, count: usize, ends: &mut [u32]) -> usize
    requires { (at < 2 ^ 40) × (length ends.old < 2 ^ 20) }
    ensures { (result ≡ min count (length ends.old)) × (ends.new ≡ sets ends.old 0 (numbers_at 4 bytes.now at result)) }
{
    let size = count.min(ends.len());
    for i in 0..size {
        ends[i] = four_in(bytes, 0, at + 4 * i) as u32;
    }
    size
}
