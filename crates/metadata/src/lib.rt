// The reader of Kotlin class metadata: from the parts of an annotation to a sheet of records and its text, in two lent areas. `read` is
// the public entry; its contract says number, detail, both lengths, the type count and every byte of both areas, for any input. `measure` tells
// what they would take, in the same frames.
#![tactic(auto)]

ghost use Rattle.std.specs.Prelude.{◌≡◌, ◌+◌, ◌*◌, ◌^◌, ◌≤◌, length};
ghost use Rattle.lookup.specs.told.Strings.{codes_from};
ghost use Rattle.inputs.specs.Inputs.{input, kind_of};
ghost use Rattle.inputs.specs.told.KindTold.{kind_number};
ghost use Rattle.inputs.specs.told.OutcomesTold.{told};
ghost use Rattle.passes.specs.Answered.{nothing_read, answered};
ghost use Rattle.passes.specs.told.AreaTold.{InLimits, AreasKept, OnAreas};
ghost use Rattle.passes.specs.told.TaskTold.{RoomTold, TaskToldBy, TaskTold};
ghost use Rattle.passes.specs.told.PassTold.{reading_of, reading_by};
ghost use Rattle.metadata.specs.Read.{reading, read};
ghost use Rattle.metadata.specs.told.ReadTold.{told_by};

use declaration_rows::{put_aliases, put_count, put_head, put_head_counts};
use fields::OMITTED_FLAGS;
use foundation::Context;
use inputs::outcome::{Refusal, Sizes};
use inputs::{Kind, Units, fault_of, kind_of};
use passes::{AreaPair, Asked, PassError, Reply, Task, decode_in, start, without_lists};
use sheet::Output;

// Both lengths and the types entered, or the refusal; and the version as it came.
#[derive(Clone, Copy)]
pub struct Answer {
    pub outcome: Result<Sizes, Refusal>,
    pub version: [i32; 3],
}

// What the head alone takes, with the count of no aliases.
const HEAD_ALONE: Sizes = Sizes {
    sheet: 23,
    text: 0,
    types: 0,
};

// Metadata kinds 3 and 4: the head alone, and that there are no aliases.
fn head_alone(kind: Kind, areas: &mut AreaPair<'_>) -> Result<Sizes, Refusal>
    ensures areas_kept { AreasKept areas.old areas.new }
    ensures written { answered areas.old.sheet.now areas.old.text.now (kind_number kind) nothing_read ≡ told result areas.new.sheet.now areas.new.text.now }
{
    if areas.sheet.len() < HEAD_ALONE.sheet {
        return Err(Refusal::SheetTooLong);
    }
    let context = Context::of_bytes(&[]);
    let mut out = Output {
        sheet: areas.sheet,
        text: areas.text,
        state: start(),
    };
    put_head(&context, kind.number(), None, OMITTED_FLAGS, &mut out);
    let head = out.state.sheet;
    out.state.sheet += 6;
    put_aliases(&mut out);
    let aliases = out.state.sheet;
    put_count(out.sheet, aliases, 0);
    put_head_counts(out.sheet, head, 0, 0, 0);
    Ok(HEAD_ALONE)
}

// Metadata kinds 3 and 4, for any task: 23 bytes of sheet, and no text.
fn alone(asked: Asked, areas: &mut AreaPair<'_>) -> Result<Reply, Refusal>
    ensures areas_kept { AreasKept areas.old areas.new }
    ensures written { OnAreas (TaskTold asked nothing_read result) areas.old areas.new }
{
    match asked.task {
        Task::Read => Ok(without_lists(head_alone(asked.kind, areas)?)),
        Task::Room => Ok(without_lists(HEAD_ALONE)),
    }
}

// A d1 of so many units at most, in a frame with room for its bytes, for a copy of them, for their notes, and for the first pass.
fn in_frame_of<const BYTES: usize, const NOTES: usize, const SHEET: usize, const TEXT: usize>(
    asked: Asked,
    units: &Units<'_>,
    areas: &mut AreaPair<'_>,
) -> Result<Reply, Refusal>
    requires { InLimits units.now.d1.now units.now.d2.now units.now.ends.now × (length units.now.d1.now ≤ BYTES) × (3 * BYTES ≤ 2 * codes_from NOTES) × (BYTES + NOTES + SHEET + TEXT ≤ 2 ^ 20) }
    ensures areas_kept { AreasKept areas.old areas.new }
    ensures written { OnAreas (TaskTold asked (reading_of (kind_number asked.kind) units.now.d1.now units.now.d2.now units.now.ends.now) result) areas.old areas.new }
{
    let mut bytes = [0u8; BYTES];
    let mut spare = [0u8; BYTES];
    let mut notes = [0u64; NOTES];
    let mut scratch_sheet = [0u8; SHEET];
    let mut scratch_text = [0u8; TEXT];
    let mut scratch = AreaPair {
        sheet: &mut scratch_sheet,
        text: &mut scratch_text,
    };
    let passed = decode_in(
        asked,
        units,
        &mut bytes,
        &mut spare,
        &mut notes,
        &mut scratch,
        areas,
    );
    match passed {
        Ok(reply) => Ok(reply),
        Err(PassError::Refused(refusal)) => Err(refusal),
        Err(PassError::NoRoom) => unreachable!(),
    }
}

// A d1 of at most 1,024 units: a frame of 7 KB up to 256, as most classes have, else of 27 KB.
// It and `in_longer` are never made a part of their caller: a long class would take the room of a short one's frame besides.
#[inline(never)]
fn in_shorter(asked: Asked, units: &Units<'_>, areas: &mut AreaPair<'_>) -> Result<Reply, Refusal>
    requires { InLimits units.now.d1.now units.now.d2.now units.now.ends.now × (length units.now.d1.now ≤ 1024) }
    ensures areas_kept { AreasKept areas.old areas.new }
    ensures written { OnAreas (TaskTold asked (reading_of (kind_number asked.kind) units.now.d1.now units.now.d2.now units.now.ends.now) result) areas.old areas.new }
{
    if units.d1.len() <= 256 {
        return in_frame_of::<256, 560, 512, 1024>(asked, units, areas);
    }
    in_frame_of::<1024, 2096, 2048, 6144>(asked, units, areas)
}

// A longer d1, in the frame that is enough: of 191 KB up to 8,192 units, of 590 KB for any.
// A frame of many pages in its caller would cost a small class more than its reading.
#[inline(never)]
fn in_longer(asked: Asked, units: &Units<'_>, areas: &mut AreaPair<'_>) -> Result<Reply, Refusal>
    requires { InLimits units.now.d1.now units.now.d2.now units.now.ends.now }
    ensures areas_kept { AreasKept areas.old areas.new }
    ensures written { OnAreas (TaskTold asked (reading_of (kind_number asked.kind) units.now.d1.now units.now.d2.now units.now.ends.now) result) areas.old areas.new }
{
    if units.d1.len() <= 8192 {
        return in_frame_of::<8192, 14368, 14336, 45056>(asked, units, areas);
    }
    in_frame_of::<32768, 51232, 49152, 65536>(asked, units, areas)
}

// A kind that carries declarations, in the frame that is enough: nine classes of ten have at most 1,024 units of d1.
// It requires what `fault_of` has found of the input: refusals 1 to 4 are the entries' own.
fn in_frame(asked: Asked, units: &Units<'_>, areas: &mut AreaPair<'_>) -> Result<Reply, Refusal>
    requires { InLimits units.now.d1.now units.now.d2.now units.now.ends.now }
    ensures areas_kept { AreasKept areas.old areas.new }
    ensures written { OnAreas (TaskTold asked (reading_of (kind_number asked.kind) units.now.d1.now units.now.d2.now units.now.ends.now) result) areas.old areas.new }
{
    if units.d1.len() <= 1024 {
        return in_shorter(asked, units, areas);
    }
    in_longer(asked, units, areas)
}

// The reply for an input without a fault, by its kind: the head alone where the kind carries no declarations, else what a frame reads.
fn of_kind(asked: Asked, units: &Units<'_>, areas: &mut AreaPair<'_>) -> Result<Reply, Refusal>
    requires { InLimits units.now.d1.now units.now.d2.now units.now.ends.now }
    ensures areas_kept { AreasKept areas.old areas.new }
    ensures written { OnAreas (TaskTold asked (reading_by (kind_number asked.kind) units.now.d1.now units.now.d2.now units.now.ends.now) result) areas.old areas.new }
{
    if !asked.kind.carries_declarations() {
        return alone(asked, areas);
    }
    in_frame(asked, units, areas)
}

// The reply for a task, whatever the input.
fn reply_to(
    task: Task,
    k: i32,
    version: [i32; 3],
    units: &Units<'_>,
    areas: &mut AreaPair<'_>,
) -> Result<Reply, Refusal>
    ensures areas_kept { AreasKept areas.old areas.new }
    ensures written { OnAreas (TaskToldBy task (kind_of k) (reading (input k version units.now.d1.now units.now.d2.now units.now.ends.now)) result) areas.old areas.new }
{
    fault_of(units, version)?;
    let asked = Asked {
        task,
        kind: kind_of(k),
    };
    of_kind(asked, units, areas)
}

// Reads the metadata of one class: k, mv, d1's units, d2's units and where its strings end; writes sheet and text into the two areas.
// The parameters, here and in `measure`, are those of the C calls, which the specification names; `Units` is made of them at once.
pub fn read(
    k: i32,
    version: [i32; 3],
    d1: &[u16],
    d2: &[u16],
    ends: &[u32],
    sheet: &mut [u8],
    text: &mut [u8],
) -> Answer
    ensures { (read sheet.old text.old (input k version d1.now d2.now ends.now) ≡ told_by result sheet.new text.new) × (result.version ≡ version) }
{
    let units = Units { d1, d2, ends };
    let mut areas = AreaPair { sheet, text };
    let reply = reply_to(Task::Read, k, version, &units, &mut areas);
    Answer {
        outcome: reply.map(|reply| reply.sizes),
        version,
    }
}

// The room that sheet and text take, with how far each list reaches and how many it has; or the refusal short of 11 and 12. Nothing is lent to
// write into.
pub fn measure(
    k: i32,
    version: [i32; 3],
    d1: &[u16],
    d2: &[u16],
    ends: &[u32],
) -> Result<Reply, Refusal>
    ensures { RoomTold (kind_of k) (reading (input k version d1.now d2.now ends.now)) result }
{
    let units = Units { d1, d2, ends };
    let mut sheet = [0u8; 0];
    let mut text = [0u8; 0];
    let mut areas = AreaPair {
        sheet: &mut sheet,
        text: &mut text,
    };
    reply_to(Task::Room, k, version, &units, &mut areas)
}
