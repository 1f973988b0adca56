// How long a text of 16-bit units is in UTF-8, counted by its units alone: plain loops, without a way out, that the compiler turns into
// vector code.
ghost use Rattle.std.specs.Prelude.{◌≡◌, ◌&&◌, ℕ, ◌+◌, ◌-◌, ◌^◌, ◌≤◌, ◌<◌, length};
ghost use Rattle.characters.specs.Characters.{is_high, is_low, from_utf16, utf8};
ghost use Rattle.characters.specs.told.Places.{part_from};
ghost use Rattle.characters.specs.told.Sizes.{unit_size, units_size};

// Are two units the halves of a pair?
fn is_pair(unit: u16, next: u16) -> bool
    ensures { result ≡ (is_high unit && is_low next) }
{
    unit / 1024 == 54 && next / 1024 == 55
}

// How many bytes a unit adds, by the unit after it.
fn unit_size(unit: u16, next: u16) -> u16
    ensures { (result ≡ unit_size unit next) × (result ≤ 3) }
{
    if is_pair(unit, next) {
        return 1;
    }
    if unit < 0x80 {
        return 1;
    }
    if unit < 0x800 {
        return 2;
    }
    3
}

// How many bytes some units add, by 16-bit sums, which their number leaves room for. `units[from..=to].windows(2)` is no plainer: the bounds stand in it all
// the same, and both units of a pair are taken by index.
fn block_size(units: &[u16], from: usize, to: usize) -> u16
    requires { (from ≤ to) × (to < length units.now) × (to - from ≤ 16384) }
    ensures { (end : ℕ) → to < end → end ≤ length units.now → result + units_size (part_from to end units.now) ≡ units_size (part_from from end units.now) }
{
    let mut size = 0;
    for i in from..to {
        size += unit_size(units[i], units[i + 1]);
    }
    size
}

// How many bytes UTF-8 gives the text of some units, block by block. The blocks are places and no chunks of the slice: what the last unit of
// a block adds goes by the unit after it, the first of the next block.
// Callers show that the number fits 64 bits: names::stream and lookup::strings by what they require.
pub fn utf8_size(units: &[u16]) -> usize
    requires { length (utf8 (from_utf16 units.now)) < 2 ^ 64 }
    ensures { result ≡ length (utf8 (from_utf16 units.now)) }
{
    if units.is_empty() {
        return 0;
    }
    let last = units.len() - 1;
    let mut size = 0;
    for from in (0..last).step_by(16384) {
        let to = last.min(from + 16384);
        size += usize::from(block_size(units, from, to));
    }
    size + usize::from(unit_size(units[last], 0))
}
