// The two passes. d1 is decoded. The first pass walks the body into scratch areas, clipped, and finds refusals 7 to 10 and both lengths. What comes
// after it goes by the task: 11, 12 and the lent areas written (areas.rt), or the room that they would take. What the functions tell:
// specs/told/PassTold.antt and specs/told/TaskTold.antt.
#![tactic(auto)]

ghost use Rattle.std.specs.Prelude.{◌≡◌, ◌-◌, ◌≤◌};
ghost use Rattle.schema.specs.told.SchemaTold.{lent};
ghost use Rattle.schema.specs.Reading.{allowance};
ghost use Rattle.inputs.specs.told.KindTold.{kind_number};
ghost use Rattle.declarations.specs.Payload.{payload};
ghost use Rattle.declarations.specs.told.PayloadTold.{LentAt, LentRoom};
ghost use Rattle.declarations.specs.told.BodyTold.{BodyTold};
ghost use Rattle.passes.specs.told.AreaTold as definition;
ghost use Rattle.passes.specs.told.AreaTold.{strings, InLimits, Limited, lent_reading, last_of, AreasKept, OnAreas};
ghost use Rattle.passes.specs.told.TaskTold.{no_lists, sizes_at, TaskTold};
ghost use Rattle.inputs.specs.declared.outcome.Refusal.TheVariants as refusal;
ghost use Rattle.passes.specs.declared.PassError.TheVariants.{Refused};
ghost use Rattle.passes.specs.told.PassTold.{of_index, of_decode, PassedTold, FrameRoom, reading_of};

use areas::write_in;
use declarations::body::{Sections, body_in};
use encoding::{DecodeError, decode};
use foundation::{Context, Located};
use inputs::outcome::{Refusal, Sizes};
use inputs::{Fault, Kind, Units};
use names::records::IndexError;
use opened::{deepest_of, open_joined};
use schema::{ALLOWANCE, Section, Stop};
use sheet::{Output, State};

mod areas; // areas.rt: what was measured, written into both areas
pub mod opened; // opened.rt: the decoded bytes opened, their type table joined; the same bytes where no look-up is left

// Two areas that are written into: the caller's, or the scratch areas of the first pass.
// `Output` of sheet has two as well; it doesn't hold an `AreaPair`, since each writer below would then reach them through one field more.
#[derive(Drop)]
pub struct AreaPair<'a> {
    pub sheet: &'a mut [u8],
    pub text: &'a mut [u8],
}

// What the first pass has found: where the body begins, how far it is written after each list, and what the scratch areas then hold.
// It has two slices and no `&AreaPair`: tried, and the proof of `write_out` didn't close, as the check knows no loan of a part through such a `&` in a struct.
#[derive(Clone, Copy)]
pub(crate) struct Measured<'a> {
    pub at: usize,
    pub sections: Sections,
    pub sheet: &'a [u8],
    pub text: &'a [u8],
}

impl<'a> Measured<'a> {
    // A function of its own, since the check knows no loan of both areas through the `&mut` that `read_in` has.
    fn of(at: usize, sections: Sections, scratch: &'a AreaPair<'_>) -> Measured<'a>
        ensures { (result.at ≡ at) × (result.sections ≡ sections) × (result.sheet.now ≡ scratch.now.sheet.now) × (result.text.now ≡ scratch.now.text.now) }
    {
        Measured {
            at,
            sections,
            sheet: scratch.sheet,
            text: scratch.text,
        }
    }
}

// Why there is no reply: the input is refused, or the decoded bytes or their notes have no room in the frame.
#[derive(Clone, Copy, Debug, PartialEq, Eq)]
pub enum PassError {
    NoRoom,
    Refused(Refusal),
}

impl From<Refusal> for PassError {
    ghost from_gives = { λ refusal e. e ≡ Refused refusal };

    fn from(refusal: Refusal) -> PassError {
        PassError::Refused(refusal)
    }
}

impl From<Stop> for PassError {
    ghost from_gives = { λ stop e. e ≡ Refused (refusal.Stop stop) };

    fn from(stop: Stop) -> PassError {
        PassError::Refused(Refusal::Stop(stop))
    }
}

impl From<IndexError> for PassError {
    ghost from_gives = { λ error e. e ≡ of_index error };

    fn from(error: IndexError) -> PassError {
        match error {
            IndexError::NoRoom => PassError::NoRoom,
            IndexError::Wire(error) => PassError::from(Stop::Wire(error)),
        }
    }
}

impl From<DecodeError> for PassError {
    ghost from_gives = { λ error e. e ≡ of_decode error };

    fn from(error: DecodeError) -> PassError {
        match error {
            DecodeError::TooLong => PassError::Refused(Refusal::Fault(Fault::D1TooLong)),
            DecodeError::Empty => PassError::Refused(Refusal::EmptyPayload),
            DecodeError::NotAByte { unit } => PassError::Refused(Refusal::NotAByte { unit }),
            DecodeError::NoRoom => PassError::NoRoom,
        }
    }
}

// What is to be done with an input: its sheet and text written, or the room that they take told.
// An enum by value and no closure: a closure would be a type parameter of each frame, so that each frame would be made twice.
// Two functions look at it: `read_in`, and `alone` of metadata, which needs no frame.
#[derive(Clone, Copy)]
pub enum Task {
    Read,
    Room,
}

#[derive(Clone, Copy)]
pub struct Asked {
    pub task: Task,
    pub kind: Kind,
}

// Both lengths and the types; and, where a room is told, how far both areas reach after each list and how many it has.
#[derive(Clone, Copy)]
pub struct Reply {
    pub sizes: Sizes,
    pub sections: Sections,
}

// Before anything is written.
pub fn start() -> State
    ensures { result ≡ definition.start }
{
    State {
        sheet: 0,
        text: 0,
        types: ALLOWANCE,
    }
}

// A reply that tells of no list.
pub fn without_lists(sizes: Sizes) -> Reply
    ensures { (result.sizes ≡ sizes) × (result.sections ≡ no_lists) }
{
    let begin = start();
    let none = Section {
        state: begin,
        count: 0,
    };
    Reply {
        sizes,
        sections: Sections {
            head: begin,
            constructors: none,
            functions: none,
            properties: none,
            aliases: none,
        },
    }
}

// What is taken where both areas are written so far.
pub(crate) fn sizes_at(end: State) -> Sizes
    requires { end.types ≤ allowance }
    ensures { result ≡ sizes_at end }
{
    Sizes {
        sheet: end.sheet,
        text: end.text,
        types: ALLOWANCE - end.types,
    }
}

// What was measured, told: both lengths at their true size, also where no area would hold them.
fn told_room(sections: Sections) -> Reply
    requires { (last_of sections).types ≤ allowance }
    ensures { (result.sizes ≡ sizes_at (last_of sections)) × (result.sections ≡ sections) }
{
    Reply {
        sizes: sizes_at(sections.aliases.state),
        sections,
    }
}

// The body of the decoded bytes, from the start of two areas.
// `Limited`, here, below and in areas.rt, is no invariant of `Context`: what reads one name or one entry asks for no limits, and is lent a `Context` too.
fn walk(
    kind: Kind,
    at: usize,
    context: &Context<'_>,
    areas: &mut AreaPair<'_>,
) -> Result<Sections, Stop>
    requires { Limited (lent context.now) × LentAt (lent context.now) at }
    ensures areas_kept { AreasKept areas.old areas.new }
    ensures written { OnAreas (BodyTold (kind_number kind) (lent_reading (kind_number kind) (lent context.now)) definition.start result) areas.old areas.new }
{
    let body = Located::rest(context.payload, at);
    let mut out = Output {
        sheet: areas.sheet,
        text: areas.text,
        state: start(),
    };
    body_in(kind, body, context, &mut out)
}

// The body of opened bytes: the first pass, which finds refusals 7 to 10, both lengths and the types with no area touched but the scratch; then
// what the task asks for.
fn read_in(
    asked: Asked,
    at: usize,
    context: &Context<'_>,
    scratch: &mut AreaPair<'_>,
    areas: &mut AreaPair<'_>,
) -> Result<Reply, Refusal>
    requires { Limited (lent context.now) × LentAt (lent context.now) at }
    ensures scratch_kept { AreasKept scratch.old scratch.new }
    ensures areas_kept { AreasKept areas.old areas.new }
    ensures written { OnAreas (TaskTold asked (lent_reading (kind_number asked.kind) (lent context.now)) result) areas.old areas.new }
{
    let sections = walk(asked.kind, at, context, scratch)?;
    match asked.task {
        Task::Read => {
            let measured = Measured::of(at, sections, scratch);
            let sizes = write_in(asked.kind, measured, context, areas)?;
            Ok(without_lists(sizes))
        }
        Task::Room => Ok(told_room(sections)),
    }
}

// The decoded bytes of a kind that carries declarations: opened, and read with all that is then lent.
fn open_in(
    asked: Asked,
    bytes: &mut [u8],
    spare: &mut [u8],
    units: &Units<'_>,
    notes: &mut [u64],
    scratch: &mut AreaPair<'_>,
    areas: &mut AreaPair<'_>,
) -> Result<Reply, PassError>
    requires { InLimits bytes.old units.now.d2.now units.now.ends.now }
    ensures scratch_kept { AreasKept scratch.old scratch.new }
    ensures areas_kept { AreasKept areas.old areas.new }
    ensures written { OnAreas (PassedTold asked (payload (kind_number asked.kind) (strings units.now.d2.now units.now.ends.now) bytes.old) (LentRoom bytes.old notes.new) result) areas.old areas.new }
{
    let opened = open_joined(bytes, units, notes)?;
    let deepest = deepest_of(bytes, notes, opened.tables, spare);
    let context = Context {
        payload: bytes,
        deepest,
        d2: units.d2,
        ends: units.ends,
        notes,
        tables: opened.tables,
    };
    let reply = read_in(asked, opened.at, &context, scratch, areas)?;
    Ok(reply)
}

// d1 of a kind that carries declarations, within its limit. `spare` is for a copy of the decoded bytes: as many as they are, or reading is only slower.
// The areas of the frame go apart: tried as one struct by value, and the check knows no loan of a part of one of its slices.
// Callers show `InLimits`: metadata from the answer of `fault_of`, which has found no fault. It is no invariant of `Units`: `fault_of` is asked of any input.
pub fn decode_in(
    asked: Asked,
    units: &Units<'_>,
    bytes: &mut [u8],
    spare: &mut [u8],
    notes: &mut [u64],
    scratch: &mut AreaPair<'_>,
    areas: &mut AreaPair<'_>,
) -> Result<Reply, PassError>
    requires { InLimits units.now.d1.now units.now.d2.now units.now.ends.now }
    ensures scratch_kept { AreasKept scratch.old scratch.new }
    ensures areas_kept { AreasKept areas.old areas.new }
    ensures written { OnAreas (PassedTold asked (reading_of (kind_number asked.kind) units.now.d1.now units.now.d2.now units.now.ends.now) (FrameRoom units.now.d1.now bytes.new notes.new) result) areas.old areas.new }
{
    let length = decode(units.d1, bytes)?;
    open_in(
        asked,
        &mut bytes[..length],
        spare,
        units,
        notes,
        scratch,
        areas,
    )
}
