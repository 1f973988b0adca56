// A name, by the part that it is made of and what is done to its characters. What it means: specs/told/Name.antt, `name_text`.
ghost use Rattle.std.specs.Prelude.{◌≡◌, ◌-◌, take, drop};
ghost use Rattle.characters.specs.told.Places.{part_from};
ghost use Rattle.characters.specs.told.Plain.{instead, with_dots, slashed_character};
ghost use Rattle.names.specs.told.Name.{source_numbered, operation_of, operation_number};
ghost use Rattle.names.specs.Records.{predefined_text};
ghost use Rattle.names.specs.told.Stream.{listed_text, base_of, change_of, with_dollars, changed};

use foundation::{Span, wide};

// What the characters of a name are a part of: the payload, the predefined list, or d2.
#[derive(Clone, Copy)]
pub enum Source {
    Payload,
    Predefined,
    D2,
}

impl Source {
    // By its number: 1, 2 and 3 in this order. A name whose number is another has no source, so that it is absent.
    // Kept public for callers that have a number; the crates here name the variants.
    // No `From<u8>`: not every number is a source.
    pub fn of(number: u8) -> Option<Source>
        ensures { result ≡ source_numbered number }
    {
        match number {
            1 => Some(Source::Payload),
            2 => Some(Source::Predefined),
            3 => Some(Source::D2),
            _ => None,
        }
    }
}

// What a record's operation does to the characters of a name: nothing; / and $ become dots; $ alone does.
#[derive(Clone, Copy)]
pub enum Operation {
    Nothing = 0,
    InternalToClassId = 1,
    DescToClassId = 2,
}

impl Operation {
    // By its number in a record. One that is neither 1 nor 2 does nothing.
    // No `From<u64>`: no plainer, since most numbers are no operation, and a caller sees at `of` that its number is looked up.
    pub fn of(number: u64) -> Operation
        ensures { result ≡ operation_of number }
    {
        match number {
            1 => Operation::InternalToClassId,
            2 => Operation::DescToClassId,
            _ => Operation::Nothing,
        }
    }

    pub fn number(self) -> u8
        ensures { result ≡ operation_number self }
    {
        self as u8
    }
}

#[derive(Clone, Copy)]
pub struct Name {
    pub source: Source,
    // the part of it
    pub part: Span,
    // Every character `from` becomes `to`. Two numbers here and where they are handed on: a struct of them would be made for `instead` alone.
    // Both are 0 where none is replaced: 0 becomes 0 by the same rule at every character, where an Option would be asked at each.
    pub from: u32,
    pub to: u32,
    pub operation: Operation,
    // A class name: / and $ become dots.
    pub qualified: bool,
    // How many bytes of UTF-8 the characters take after `from` became `to`; 0, or more than 131,072, where that isn't noted.
    // No Option: `is_measured` is one test that also keeps out what a note can't hold; with an Option both would be asked.
    pub size: usize,
}

// All predefined strings in one text, one after the other.
// No array of texts: a name tells its text by two places, and the two words noted of a record have no room for a string's number too.
pub static PREDEFINED: [u8; 878] =
    *b"kotlin/Anykotlin/Nothingkotlin/Unitkotlin/Throwablekotlin/Numberkotlin/Bytekotlin/Doublekotlin/Floatkotlin/Intkotlin/Longkotlin/Shortkotlin/Booleankotlin/Charkotlin/CharSequencekotlin/Stringkotlin/Comparablekotlin/Enumkotlin/Arraykotlin/ByteArraykotlin/DoubleArraykotlin/FloatArraykotlin/IntArraykotlin/LongArraykotlin/ShortArraykotlin/BooleanArraykotlin/CharArraykotlin/Cloneablekotlin/Annotationkotlin/collections/Iterablekotlin/collections/MutableIterablekotlin/collections/Collectionkotlin/collections/MutableCollectionkotlin/collections/Listkotlin/collections/MutableListkotlin/collections/Setkotlin/collections/MutableSetkotlin/collections/Mapkotlin/collections/MutableMapkotlin/collections/Map.Entrykotlin/collections/MutableMap.MutableEntrykotlin/collections/Iteratorkotlin/collections/MutableIteratorkotlin/collections/ListIteratorkotlin/collections/MutableListIterator";

// Where each of them starts, and where the last ends.
static STARTS: [u16; 45] = [
    0, 10, 24, 35, 51, 64, 75, 88, 100, 110, 121, 133, 147, 158, 177, 190, 207, 218, 230, 246, 264,
    281, 296, 312, 329, 348, 364, 380, 397, 424, 458, 487, 523, 546, 576, 598, 627, 649, 678, 706,
    748, 775, 809, 840, 878,
];

// The part of the list that a predefined string is.
pub fn predefined(index: u32) -> Option<Span>
    ensures { listed_text result ≡ predefined_text index }
{
    if 44 <= index {
        return None;
    }
    let i = wide(index);
    Some(Span {
        start: usize::from(STARTS[i]),
        end: usize::from(STARTS[i + 1]),
    })
}

// A part of `s`, as far as `s` goes.
pub fn part_of<T>(s: &[T], part: Span) -> &[T]
    ensures { result.now ≡ take (part.end - part.start) (drop part.start s.now) }
{
    s.get(part.start..part.end.min(s.len())).unwrap_or(&[])
}

// What a name is made of, if not of units of d2: a part of the list or of the payload.
// The list is lent too, and `PREDEFINED` isn't named here: the specification names this form, one of two slices, each with its lifetime.
pub fn base_text<'p, 'l: 'p>(
    payload: &'p [u8],
    list: &'l [u8],
    source: Source,
    part: Span,
) -> &'p [u8]
    ensures { result.now ≡ part_from part.start part.end (base_of source payload.now list.now) }
{
    match source {
        Source::Predefined => part_of(list, part),
        _ => part_of(payload, part),
    }
}

// What is done to each character of a name, in this order.
// The writers of a text take `change, area, at`. No struct of them: the change stays the same in a text, and each writer has another area or place.
#[derive(Clone, Copy)]
pub struct Change {
    pub from: u32,
    pub to: u32,
    // $ becomes a dot
    pub dollars: bool,
    // / and $ become dots
    pub dots: bool,
    // dots become slashes
    pub slashes: bool,
}

// What is done to the characters of a name. Where there is no name, nothing but what `slashes` asks for.
pub fn change_of(name: Option<Name>, slashes: bool) -> Change
    ensures { result ≡ change_of name slashes }
{
    let Some(name) = name else {
        return Change {
            from: 0,
            to: 0,
            dollars: false,
            dots: false,
            slashes,
        };
    };
    Change {
        from: name.from,
        to: name.to,
        dollars: matches!(name.operation, Operation::DescToClassId),
        dots: matches!(name.operation, Operation::InternalToClassId) || name.qualified,
        slashes,
    }
}

pub fn instead(from: u32, to: u32, c: u32) -> u32
    ensures { result ≡ instead from to c }
{
    if c == from { to } else { c }
}

fn with_dollars(dollars: bool, c: u32) -> u32
    ensures { result ≡ with_dollars dollars c }
{
    if dollars {
        return instead(0x24, 0x2e, c);
    }
    c
}

fn with_dots(dots: bool, c: u32) -> u32
    ensures { result ≡ with_dots dots c }
{
    if dots {
        return instead(0x2f, 0x2e, instead(0x24, 0x2e, c));
    }
    c
}

fn with_slashes(slashes: bool, c: u32) -> u32
    ensures { result ≡ slashed_character slashes c }
{
    if slashes {
        return instead(0x2e, 0x2f, c);
    }
    c
}

pub fn character_of(change: Change, code: u32) -> u32
    ensures { result ≡ changed change code }
{
    let c = instead(change.from, change.to, code);
    let d = with_dollars(change.dollars, c);
    with_slashes(change.slashes, with_dots(change.dots, d))
}
