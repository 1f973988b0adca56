// Which strings of d2 the reading of an input falls to. The definition: specs/UsedStrings.antt; how the answer tells it: specs/told/UsedTold.antt.
#![tactic(auto)]

ghost use Rattle.std.specs.Prelude.{◌≡◌, ◌+◌, ◌*◌, ◌^◌, ◌≤◌, length, replicate};
ghost use Rattle.lookup.specs.told.Strings.{codes_from};
ghost use Rattle.inputs.specs.Inputs.{input};
ghost use Rattle.inputs.specs.told.KindTold.{kind_number};
ghost use Rattle.passes.specs.told.AreaTold.{InLimits};
ghost use Rattle.string_marks.specs.UsedStrings.{set_marks, UsedStrings};
ghost use Rattle.string_marks.specs.told.MarksTold.{BytesMarked, DecodedMarked, KindMarked};
ghost use Rattle.string_marks.specs.told.UsedTold.{tells_used};

mod look_ups; // look_ups.rt: one look-up
mod types; // types.rt: types inside types
mod member_lists; // member_lists.rt: constructors, functions, properties, type aliases, and their lists
mod body; // body.rt: a whole body

use body::mark_body;
use encoding::decode;
use foundation::{Context, Located};
use inputs::outcome::Refusal;
use inputs::{Kind, Units, kind_of};
use metadata::measure;
use passes::opened::{deepest_of, open_joined};

// The decoded bytes of a kind that carries declarations, opened as for a reading: with their type table joined, and a copy in `spare` in which entries are
// as they are read where no look-up is left. What is told is told of bytes that are accepted, and of notes that they have room in.
fn mark_bytes(
    kind: Kind,
    bytes: &mut [u8],
    spare: &mut [u8],
    units: &Units<'_>,
    notes: &mut [u64],
    used: &mut [u8],
)
    requires { InLimits bytes.old units.now.d2.now units.now.ends.now × (3 * length bytes.old ≤ 2 * codes_from (length notes.old)) }
    ensures { BytesMarked (kind_number kind) units.now.d2.now units.now.ends.now bytes.old used.old used.new }
{
    let Ok(opened) = open_joined(bytes, units, notes) else {
        return;
    };
    let deepest = deepest_of(bytes, notes, opened.tables, spare);
    let context = Context {
        payload: bytes,
        deepest,
        d2: units.d2,
        ends: units.ends,
        notes,
        tables: opened.tables,
    };
    mark_body(kind, Located::rest(bytes, opened.at), &context, used);
}

// A d1 of so many units at most, in a frame with room for its bytes, for a copy of them, and for their notes.
fn mark_in_frame_of<const BYTES: usize, const NOTES: usize>(
    kind: Kind,
    units: &Units<'_>,
    used: &mut [u8],
)
    requires { InLimits units.now.d1.now units.now.d2.now units.now.ends.now × (length units.now.d1.now ≤ BYTES) × (3 * BYTES ≤ 2 * codes_from NOTES) × (BYTES + NOTES ≤ 2 ^ 20) }
    ensures { DecodedMarked (kind_number kind) units.now.d1.now units.now.d2.now units.now.ends.now used.old used.new }
{
    let mut bytes = [0u8; BYTES];
    let mut spare = [0u8; BYTES];
    let mut notes = [0u64; NOTES];
    let Ok(size) = decode(units.d1, &mut bytes) else {
        return;
    };
    mark_bytes(
        kind,
        &mut bytes[..size],
        &mut spare,
        units,
        &mut notes,
        used,
    );
}

// A longer d1, in the frame that is enough for any. It is never made a part of its caller, here and below: a frame of many pages there would cost a small
// class more than its reading.
#[inline(never)]
fn mark_in_longer(kind: Kind, units: &Units<'_>, used: &mut [u8])
    requires { InLimits units.now.d1.now units.now.d2.now units.now.ends.now }
    ensures { DecodedMarked (kind_number kind) units.now.d1.now units.now.d2.now units.now.ends.now used.old used.new }
{
    mark_in_frame_of::<32768, 51232>(kind, units, used);
}

// A d1 of a kind that carries declarations: a frame of 19 KB up to 1,024 units, as nine classes of ten have, else a longer one. `measure` has returned before,
// so that its frame and this one don't stand at once.
#[inline(never)]
fn mark_in_frame(kind: Kind, units: &Units<'_>, used: &mut [u8])
    requires { InLimits units.now.d1.now units.now.d2.now units.now.ends.now }
    ensures { DecodedMarked (kind_number kind) units.now.d1.now units.now.d2.now units.now.ends.now used.old used.new }
{
    if units.d1.len() <= 1024 {
        mark_in_frame_of::<1024, 2096>(kind, units, used);
    } else {
        mark_in_longer(kind, units, used);
    }
}

// As many marks as there are strings, those of a kind: none where it carries no declarations.
fn mark_kind(kind: Kind, units: &Units<'_>, used: &mut [u8])
    requires { InLimits units.now.d1.now units.now.d2.now units.now.ends.now }
    ensures { KindMarked (kind_number kind) units.now.d1.now units.now.d2.now units.now.ends.now (replicate (length used.old) 0) used.new }
{
    used.fill(0);
    if kind.carries_declarations() {
        mark_in_frame(kind, units, used);
    }
}

// How many marks are set.
fn count_marks(used: &[u8]) -> usize
    ensures { result ≡ set_marks used.now }
{
    let mut count = 0;
    for mark in used {
        if *mark == 1 {
            count += 1;
        }
    }
    count
}

// How many strings of d2 the reading of an input falls to; each of them is marked with 1 in `used`, each other with 0. The parameters before `used` are
// those of metadata's `measure`, and an input that is refused there is refused here.
pub fn strings(
    k: i32,
    version: [i32; 3],
    d1: &[u16],
    d2: &[u16],
    ends: &[u32],
    used: &mut [u8],
) -> Result<usize, Refusal>
    ensures { UsedStrings (input k version d1.now d2.now ends.now) used.old used.new (tells_used result) }
{
    measure(k, version, d1, d2, ends)?;
    if used.len() < ends.len() {
        return Err(Refusal::SheetTooLong);
    }
    let units = Units { d1, d2, ends };
    mark_kind(kind_of(k), &units, &mut used[..ends.len()]);
    Ok(count_marks(&used[..ends.len()]))
}
