// The wire format: varints and fields in a part `s` of the decoded bytes. A place in it is `at`, and has the offset `s.base + at` among
// them. The definitions: specs/Wire.antt; how the answers tell them: specs/told/WireTold.antt.
#![tactic(auto)]

ghost use Rattle.std.specs.Prelude.{◌≡◌, List, ℕ, ◌+◌, ◌-◌, ◌^◌, ◌≤◌, ◌<◌, ◌≢◌, false, length, get_or, take, drop, ⊤};
ghost use Rattle.std.specs.Iterator.{at_most};
ghost use Rattle.foundation.specs.Results.{got};
ghost use Rattle.foundation.specs.Digits.{number};
ghost use Rattle.wire.specs.Wire.{group, read_fixed, read_value, is_field_number, read_field, read_varint};
ghost use Rattle.wire.specs.told.WireTold.{rest_of, value_number, piece_of, GroupsTold, VarintAt, DelimitedAt, ValueTold, FieldTold, FieldAt, ShortTold, ShortFieldTold, FieldsNext};

use foundation::{Located, Read, Span};
use std::error::Error;
use std::fmt;

// The refusals of a reading. Each tells the offset, among the decoded bytes, of what was being read.
#[derive(Clone, Copy, Debug, PartialEq, Eq)]
pub enum WireError {
    VarintCutShort { place: usize },
    OversizedVarint { place: usize },
    PastItsMessage { place: usize },
    FieldTooLarge { place: usize },
    ForbiddenField { place: usize },
    WireType { kind: u8, place: usize },
}

impl fmt::Display for WireError {
    fn fmt<W: fmt::Write>(&self, f: &mut fmt::Formatter<W>) -> fmt::Result {
        match self {
            WireError::VarintCutShort { place } => write!(f, "varint cut short at {place}"),
            WireError::OversizedVarint { place } => write!(f, "oversized varint at {place}"),
            WireError::PastItsMessage { place } => write!(f, "past its message at {place}"),
            WireError::FieldTooLarge { place } => write!(f, "field too large at {place}"),
            WireError::ForbiddenField { place } => write!(f, "field number forbidden at {place}"),
            WireError::WireType { kind, place } => write!(f, "wire type {kind} at {place}"),
        }
    }
}

impl Error for WireError {}

// What a byte of a varint gives, with `earlier` bytes of the varint before it: its low 7 bits, of the tenth byte only the lowest bit. The
// continuation bit is dropped.
fn group_of(byte: u8, earlier: usize) -> u8
    requires { earlier < 10 }
    ensures { result ≡ group (9 - earlier) byte }
{
    if earlier == 9 {
        return byte % 2;
    }
    byte % 128
}

// The first of the encoding guide's two steps for a varint: the continuation bits are dropped. The groups of the varint at a place are written
// into an area of ten bytes, in the order of its bytes. The answer is how many groups there are, which is how many bytes the varint has. A byte
// after the tenth makes it oversized.
// Here and below a place `at` lies in the slice, as each caller has tested. With the rest of the slice in its place, a `Located` of its own would be
// made for each value, and every place in an answer would have to be added to again.
fn groups_at(s: Located<'_>, at: usize, groups: &mut [u8; 10]) -> Result<usize, WireError>
    requires { at ≤ length s.bytes.now }
    ensures { GroupsTold s.entry.base s.entry.bytes.now at groups.new result }
{
    let place = s.base + at;
    for count in 0..10 {
        let i = at + count;
        if s.bytes.len() <= i {
            return Err(WireError::VarintCutShort { place });
        }
        let byte = s.bytes[i];
        groups[count] = group_of(byte, count);
        if byte < 128 {
            return Ok(count + 1);
        }
    }
    if s.bytes.len() <= at + 10 {
        return Err(WireError::VarintCutShort { place });
    }
    Err(WireError::OversizedVarint { place })
}

// The number with these digits to the base BASE, the lowest first.
fn number_of<const BASE: u64>(digits: &[u8]) -> u64
    requires { (0 < BASE) × (number BASE digits.now < 2 ^ 64) }
    ensures { result ≡ number BASE digits.now }
{
    let mut value: u64 = 0;
    for digit in digits.iter().rev() {
        value = value * BASE + u64::from(*digit);
    }
    value
}

// A varint of any size, by the encoding guide's two steps: the second joins the groups, from the last to the first. A place past the slice's
// end is refused as a varint that is cut short.
fn long_varint_at(s: Located<'_>, at: usize) -> Result<Read<u64>, WireError>
    ensures { VarintAt s.entry.base s.entry.bytes.now at result }
{
    if s.bytes.len() <= at {
        let place = s.base + s.bytes.len();
        return Err(WireError::VarintCutShort { place });
    }
    let mut groups = [0u8; 10];
    let count = groups_at(s, at, &mut groups)?;
    let value = number_of::<128>(&groups[..count]);
    let next = at + count;
    Ok(Read { value, next })
}

// The varint at a place, if it has one or two bytes, as most have. The guide's two steps in plain arithmetic: the continuation bit, which only
// the first of two bytes has, is dropped; then the groups are joined, the last first.
fn short_varint(s: &[u8], at: usize) -> Option<Read<u64>>
    ensures { ShortTold s.now at result }
{
    if s.len() <= at {
        return None;
    }
    let first = u64::from(s[at]);
    let next = at + 1;
    if first < 128 {
        return Some(Read { value: first, next });
    }
    if s.len() <= next {
        return None;
    }
    let last = u64::from(s[next]);
    if 128 <= last {
        return None;
    }
    Some(Read {
        value: last * 128 + first % 128,
        next: next + 1,
    })
}

// The varint at a place. A place past the slice's end is refused as a varint that is cut short.
pub fn varint_at(s: Located<'_>, at: usize) -> Result<Read<u64>, WireError>
    ensures { VarintAt s.entry.base s.entry.bytes.now at result }
{
    match short_varint(s.bytes, at) {
        Some(read) => Ok(read),
        None => long_varint_at(s, at),
    }
}

#[derive(Clone, Copy)]
pub enum WireValue {
    Varint(u64),
    // Nobody takes these values but to show them. With a variant for 4 bytes and one for 8, each `match` would have two arms with the same answer.
    Fixed { width: usize, number: u64 },
    // The bytes of a length-delimited value.
    Body(Span),
}

impl WireValue {
    // The value, if it is a varint.
    pub fn varint(self) -> Option<u64>
        ensures { result ≡ value_number self }
    {
        match self {
            WireValue::Varint(value) => Some(value),
            _ => None,
        }
    }

    // The bytes, if it is length-delimited.
    pub fn bytes(self) -> Option<Span>
        ensures { result ≡ piece_of self }
    {
        match self {
            WireValue::Body(span) => Some(span),
            _ => None,
        }
    }
}

// The number that some bytes of a slice give, eight at most, the lowest first.
fn fixed_number(s: &[u8], at: usize, width: usize) -> u64
    requires { (width ≤ 8) × (at + width ≤ length s.now) }
    ensures { result ≡ number 256 (take width (drop at s.now)) }
{
    number_of::<256>(&s[at..at + width])
}

// A number of `width` bytes, the lowest first.
fn fixed_at(s: Located<'_>, at: usize, width: usize) -> Result<Read<WireValue>, WireError>
    requires { (width ≤ 8) × (at ≤ length s.bytes.now) }
    ensures { ValueTold s.entry.base s.entry.bytes.now (read_fixed width (rest_of s.entry.base s.entry.bytes.now at)) result }
{
    if s.bytes.len() - at < width {
        return Err(WireError::PastItsMessage { place: s.base + at });
    }
    let next = at + width;
    let number = fixed_number(s.bytes, at, width);
    Ok(Read {
        value: WireValue::Fixed { width, number },
        next,
    })
}

// A length as a varint, and that many bytes after it. A place past the slice's end is refused as a varint that is cut short.
// A `usize` becomes a `u64` by `as`, and back where it is at most a length, here and in `short_field`: `try_from` would add an arm that no input reaches.
pub fn delimited_at(s: Located<'_>, at: usize) -> Result<Span, WireError>
    ensures { DelimitedAt s.entry.base s.entry.bytes.now at result }
{
    let size = varint_at(s, at)?;
    let left = (s.bytes.len() - size.next) as u64;
    if left < size.value {
        return Err(WireError::PastItsMessage { place: s.base + at });
    }
    Ok(Span {
        start: size.next,
        end: size.next + size.value as usize,
    })
}

// The value at a place, after a tag at the offset `place`, by the tag's wire type. The wire type is a number and no enum: one that is none of
// the four stands in the refusal as it is.
fn value_at(s: Located<'_>, place: usize, kind: u8, at: usize) -> Result<Read<WireValue>, WireError>
    requires { at ≤ length s.bytes.now }
    ensures { ValueTold s.entry.base s.entry.bytes.now (read_value place kind (rest_of s.entry.base s.entry.bytes.now at)) result }
{
    match kind {
        0 => {
            let read = varint_at(s, at)?;
            Ok(Read {
                value: WireValue::Varint(read.value),
                next: read.next,
            })
        }
        1 => fixed_at(s, at, 8),
        2 => {
            let body = delimited_at(s, at)?;
            Ok(Read {
                value: WireValue::Body(body),
                next: body.end,
            })
        }
        5 => fixed_at(s, at, 4),
        _ => Err(WireError::WireType { kind, place }),
    }
}

#[derive(Clone, Copy)]
pub struct Field {
    pub number: u32,
    pub value: WireValue,
}

// The field numbers that the encoding guide allows: 1 to 536,870,911.
fn is_field_number(number: u32) -> bool
    ensures { result ≡ is_field_number number }
{
    0 < number && number < 536870912
}

// The field at a place that has this tag. Its number is tested before its wire type.
fn tagged_at(s: Located<'_>, at: usize, tag: Read<u64>) -> Result<Read<Field>, WireError>
    requires { (at ≤ length s.bytes.now) × (tag.next ≤ length s.bytes.now) }
    ensures { read_varint (rest_of s.entry.base s.entry.bytes.now at) ≡ got tag.value (rest_of s.entry.base s.entry.bytes.now tag.next) → FieldTold s.entry.base s.entry.bytes.now (read_field (rest_of s.entry.base s.entry.bytes.now at)) result }
{
    let place = s.base + at;
    let Ok(number) = u32::try_from(tag.value / 8) else {
        return Err(WireError::FieldTooLarge { place });
    };
    if !is_field_number(number) {
        return Err(WireError::ForbiddenField { place });
    }
    let read = value_at(s, place, (tag.value % 8) as u8, tag.next)?;
    Ok(Read {
        value: Field {
            number,
            value: read.value,
        },
        next: read.next,
    })
}

// The field at a place by the short way, for most fields: its tag has one or two bytes, so has the varint after the tag, and the value is that
// varint, or a body of that length which ends in the slice. For any other field the answer is None. So it is for a tag below 8, which is field
// 0: `tagged_at` refuses it. A tag of two bytes is below 2^14, so that its field number isn't too large.
#[inline(always)]
fn short_field(s: &[u8], at: usize) -> Option<Read<Field>>
    ensures { ShortFieldTold s.now at result }
{
    let tag = short_varint(s, at)?;
    if tag.value < 8 {
        return None;
    }
    let number = (tag.value / 8) as u32;
    let first = short_varint(s, tag.next)?;
    // The wire type. Only 0 and 2 are read the short way; any other is left to `value_at`.
    let kind = tag.value % 8;
    if kind == 0 {
        return Some(Read {
            value: Field {
                number,
                value: WireValue::Varint(first.value),
            },
            next: first.next,
        });
    }
    if kind != 2 {
        return None;
    }
    let left = (s.len() - first.next) as u64;
    if left < first.value {
        return None;
    }
    let end = first.next + first.value as usize;
    Some(Read {
        value: Field {
            number,
            value: WireValue::Body(Span {
                start: first.next,
                end,
            }),
        },
        next: end,
    })
}

// The field at a place. A place past the slice's end is refused as a tag that is cut short.
#[inline(always)]
pub fn field_at(s: Located<'_>, at: usize) -> Result<Read<Field>, WireError>
    ensures { FieldAt s.entry.base s.entry.bytes.now at result }
{
    if let Some(read) = short_field(s.bytes, at) {
        return Ok(read);
    }
    let tag = varint_at(s, at)?;
    tagged_at(s, at, tag)
}

// Is a number one of these? A loop of its own, since the library's `contains` isn't inlined: with it a search takes more than twice as long.
fn is_among<const N: usize>(numbers: [u32; N], number: u32) -> bool
    ensures { result ≡ false → (i : ℕ) → i < N → get_or numbers.entry i 0 ≢ number }
{
    for i in 0..N {
        if numbers[i] == number {
            return true;
        }
    }
    false
}

// A walk over the fields of a slice, for somebody who looks for some field numbers. A field that `short_field` reads and that has none of these
// numbers is passed over. Every other field is given, so that the caller tests its number. The walk ends at the slice's end, and after a field
// that is refused.
#[derive(Clone, Copy)]
pub struct Fields<'a, const N: usize> {
    s: Located<'a>,
    numbers: [u32; N],
    at: usize,
}

impl<'a, const N: usize> Iterator for Fields<'a, N> {
    type Item = Result<Field, WireError>;

    ghost can_next = { λ i. ⊤ };

    ghost next_gives = { λ i r t. FieldsNext i.s.base i.s.bytes.now i.numbers i.at r t.at × (t.s ≡ i.s) × (t.numbers ≡ i.numbers) };

    ghost remaining = { λ i. at_most (length i.s.bytes.now - i.at) };

    #[inline(always)]
    fn next(&mut self) -> Option<Result<Field, WireError>> {
        let Fields { s, numbers, mut at } = *self;
        while let Some(read) = short_field(s.bytes, at) {
            if is_among(numbers, read.value.number) {
                self.at = read.next;
                return Some(Ok(read.value));
            }
            at = read.next;
        }
        if s.bytes.len() <= at {
            self.at = at;
            return None;
        }
        match field_at(s, at) {
            Ok(read) => {
                self.at = read.next;
                Some(Ok(read.value))
            }
            Err(error) => {
                self.at = s.bytes.len();
                Some(Err(error))
            }
        }
    }
}

// The fields with some numbers, from a place on. Fields with other numbers may come between them.
pub fn fields_from<'a, const N: usize>(
    s: Located<'a>,
    numbers: [u32; N],
    at: usize,
) -> Fields<'a, N>
    ensures { (result.s ≡ s.entry) × (result.numbers ≡ numbers.entry) × (result.at ≡ at) }
{
    Fields { s, numbers, at }
}
