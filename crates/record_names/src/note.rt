// What a record builds, in two words: worked out once, when the table is indexed. The definition: specs/told/Note.antt.
ghost use Rattle.std.specs.Prelude.{◌≡◌, ◌+◌, ◌*◌, ◌<◌};
ghost use Rattle.record_names.specs.told.Note.{source_kind, source_of, noted_part, noted_name, noted, noted_class, class_size, class_of, NameFits, WordsTold};

use crate::class_name::qualified_part;
use foundation::Span;
use names::name::{Name, Operation, Source};

// A place has 16 bits, a character 21.
const PLACE: u64 = 65536;

const CHARACTER: u64 = 2097152;

// What is noted of a record: `place` has 16 bits for each of four places, `steps` the rest.
// Packed words and no name: the notes are words of a fixed number that the caller lends, since there is no heap.
#[derive(Clone, Copy)]
pub struct Words {
    pub place: u64,
    pub steps: u64,
}

// The words of a record that doesn't decide, and of one that decides and has no text. The low two bits of `steps` are the kind: 0 and 1.
pub(crate) const UNDECIDED: Words = Words { place: 0, steps: 0 };

pub(crate) const NO_TEXT: Words = Words { place: 0, steps: 1 };

// The kind in the words of a name: 3 where it is a part of the predefined list, 2 where it is one of the payload.
fn source_kind(source: Source) -> u64
    ensures { result ≡ source_kind source }
{
    match source {
        Source::Predefined => 3,
        _ => 2,
    }
}

// A part packed into 32 bits: its start is in the low 16, its end in the 16 above.
// Not `names::records::place_pair`, which gives a place 32 bits: one word holds four places here.
// `as`, here and below: Rust has no `From` between `usize` and `u64`, nor from `u64` to `u32`; what is cut off a word fits.
fn noted_place(part: Span) -> u64
    requires { (part.start < 65536) × (part.end < 65536) }
    ensures { result ≡ part.start + 65536 * part.end }
{
    part.start as u64 + PLACE * (part.end as u64)
}

// The part that the low 32 bits of a number pack.
fn noted_part(place: u64) -> Span
    ensures { result ≡ noted_part place }
{
    Span {
        start: (place % PLACE) as usize,
        end: (place / PLACE % PLACE) as usize,
    }
}

// Packs a record's name with its size, and the part that its class name is made of. `place` has the name's part in its low 32 bits and the
// class name's part in the 32 above. `steps` has, from its low bits on, the kind (2 bits), the operation (2), `from` and `to` (21 each) and
// the size (18).
pub(crate) fn words_of(name: Name, class: Span) -> Words
    requires { NameFits name × (class.start < 65536) × (class.end < 65536) }
    ensures { WordsTold name class result }
{
    let place = noted_place(name.part) + PLACE * PLACE * noted_place(class);
    let characters = u64::from(name.from)
        + CHARACTER * (u64::from(name.to) + CHARACTER * (name.size as u64));
    let low = source_kind(name.source) + 4 * u64::from(name.operation.number());
    Words {
        place,
        steps: low + 16 * characters,
    }
}

// The source of a name, by the kind in its words.
fn source_of(kind: u64) -> Source
    ensures { result ≡ source_of kind }
{
    if kind == 2 {
        Source::Payload
    } else {
        Source::Predefined
    }
}

// The name that `words_of` packed into words; their kind is 2 or 3.
fn noted_name(words: Words) -> Name
    ensures { result ≡ noted_name words.place words.steps }
{
    let Words { place, steps } = words;
    Name {
        source: source_of(steps % 4),
        part: noted_part(place),
        from: (steps / 4 / 4 % CHARACTER) as u32,
        to: (steps / 4 / 4 / CHARACTER % CHARACTER) as u32,
        operation: Operation::of(steps / 4 % 4),
        qualified: false,
        size: (steps / 4 / 4 / CHARACTER / CHARACTER) as usize,
    }
}

// What is noted of a record by its words: whether it decides, and then its name, or none if its text can't be built.
#[tactic(auto, unfolding(crate::specs::told::Note::noted))]
pub fn noted(words: Words) -> Option<Option<Name>>
    ensures { result ≡ noted words.place words.steps }
{
    match words.steps % 4 {
        0 => None,
        1 => Some(None),
        _ => Some(Some(noted_name(words))),
    }
}

// The size of a class name's text. Where the class name starts later in its source than the name, L and ; are left out: two bytes less.
pub fn class_size(size: usize, start: usize, first: usize) -> usize
    ensures { result ≡ class_size size start first }
{
    if first == start {
        return size;
    }
    size.saturating_sub(2)
}

// A record's name as a class name, made of another part of its source.
fn class_of(name: Name, part: Span) -> Name
    ensures { result ≡ class_of name part }
{
    Name {
        size: class_size(name.size, name.part.start, part.start),
        ..qualified_part(name, part)
    }
}

// What is noted of a record's class name by the record's words: whether the record decides, and then the class name, or none if its text can't
// be built.
pub fn noted_class(words: Words) -> Option<Option<Name>>
    ensures { result ≡ noted_class words.place words.steps }
{
    let Some(name) = noted(words)? else {
        return Some(None);
    };
    let part = noted_part(words.place / PLACE / PLACE);
    Some(Some(class_of(name, part)))
}
