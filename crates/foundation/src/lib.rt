// Definitions and laws that every other crate shares: see specs/ and proofs/.
#![tactic(auto)]

ghost use Rattle.std.specs.Prelude.{◌≡◌, ◌+◌, ◌-◌, ◌^◌, ◌<◌, ◌≤◌, [], length, take, drop, set};

// A part of a slice: of `s`, what stands in `&s[start..end]`.
#[derive(Clone, Copy)]
pub struct Span {
    pub start: usize,
    pub end: usize,
}

impl Span {
    // The same part where the slice's first element stands at the place `by` of another: both places are that much further on.
    // Callers show that places fit 64 bits: their slice lies in one that is at hand.
    pub fn moved(self, by: usize) -> Span
        requires { (self.start ≤ self.end) × (self.end + by < 2 ^ 64) }
        ensures { (result.start ≡ self.start + by) × (result.end ≡ self.end + by) }
    {
        Span {
            start: self.start + by,
            end: self.end + by,
        }
    }
}

// What was read, and the place after it.
#[derive(Clone, Copy)]
pub struct Read<T> {
    pub value: T,
    pub next: usize,
}

// Some of the decoded bytes, and the offset of the first among all of them: the definitions' `Part` (`told_part` of specs/told/Located).
// Functions take it beside a field's number, a place or a writer, and no struct but the iterators `Fields` and `Bodies` holds both: a part is asked for many numbers and read at many places.
#[derive(Clone, Copy)]
pub struct Located<'a> {
    pub base: usize,
    pub bytes: &'a [u8],
    pub ghost fits: { base + length bytes.now < 2 ^ 64 },
}

impl<'a> Located<'a> {
    // All of the decoded bytes, or bytes that are looked at alone.
    pub fn whole(bytes: &'a [u8]) -> Located<'a>
        ensures { (result.base ≡ 0) × (result.bytes.now ≡ bytes.now) }
    {
        Located { base: 0, bytes }
    }

    // What stands from a place of all the decoded bytes on.
    // Callers show that the place lies in them: by what the answer tells that gave it.
    pub fn rest(bytes: &'a [u8], at: usize) -> Located<'a>
        requires { at ≤ length bytes.now }
        ensures { (result.base ≡ at) × (result.bytes.now ≡ drop at bytes.now) }
    {
        Located {
            base: at,
            bytes: &bytes[at..],
        }
    }

    // What stands in a span of all the decoded bytes.
    // Callers show that the span lies in them: by what the answer tells that gave it, or the note that it was read from.
    pub fn of(bytes: &'a [u8], span: Span) -> Located<'a>
        requires { (span.start ≤ span.end) × (span.end ≤ length bytes.now) }
        ensures { (result.base ≡ span.start) × (result.bytes.now ≡ take (span.end - span.start) (drop span.start bytes.now)) }
    {
        Located {
            base: span.start,
            bytes: &bytes[span.start..span.end],
        }
    }

    // What stands in a span of it.
    // Callers show that the span lies in it: messages, and the crates above it, by what the answer tells that gave them the span.
    pub fn part(self, span: Span) -> Located<'a>
        requires { (span.start ≤ span.end) × (span.end ≤ length self.bytes.now) }
        ensures { (result.base ≡ self.entry.base + span.start) × (result.bytes.now ≡ take (span.end - span.start) (drop span.start self.entry.bytes.now)) }
    {
        Located {
            base: self.base + span.start,
            bytes: &self.bytes[span.start..span.end],
        }
    }
}

// What is noted beside the slices that are lent: how many records the name table has, how many entries the type table, and from which of
// these on all are nullable, if any is.
#[derive(Clone, Copy)]
pub struct Tables {
    pub records: usize,
    pub types: usize,
    pub first_nullable: Option<u32>,
}

// What every reader is lent: the decoded bytes; the same bytes as an entry of the type table is read where no look-up is left (schema's `DeepestOf`), which
// are the same slice where there is no type table; d2 and where its strings end; the notes of the name table's records, and after them those of the type
// table's entries; and how many there are of each.
// It has no limit as an invariant: what reads one name or one entry asks for none. Where a walk needs limits, it requires them (`Ready`).
// Functions take it beside a name, a message or a writer, and no struct holds both: each call makes another pair of them.
#[derive(Clone, Copy)]
pub struct Context<'a> {
    pub payload: &'a [u8],
    pub deepest: &'a [u8],
    pub d2: &'a [u16],
    pub ends: &'a [u32],
    pub notes: &'a [u64],
    pub tables: Tables,
    pub ghost as_long: { length deepest.now ≡ length payload.now },
}

impl<'a> Context<'a> {
    // Bytes alone: no string of d2, and nothing noted.
    pub fn of_bytes(payload: &'a [u8]) -> Context<'a>
        ensures { (result.payload.now ≡ payload.now) × (result.d2.now ≡ []) }
    {
        Context {
            payload,
            deepest: payload,
            d2: &[],
            ends: &[],
            notes: &[],
            tables: Tables {
                records: 0,
                types: 0,
                first_nullable: None,
            },
        }
    }
}

// One element of a lent area. A write is clipped: past the area's end it is left out, and nothing changes.
pub fn put<T: Copy>(area: &mut [T], at: usize, value: T)
    ensures { area.new ≡ set area.old at value }
{
    if at < area.len() {
        area[at] = value;
    }
}

// A number of 32 bits as a place. Rust has no `From<u32>` for `usize`.
pub fn wide(n: u32) -> usize
    ensures { result ≡ n }
{
    n as usize
}
