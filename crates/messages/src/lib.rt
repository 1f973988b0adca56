// Messages. A message is a part of the decoded bytes that can be cut into fields. Functions here cut a message, or look up a field in it. What a
// look-up answers is promised for a message that can be cut; it is safe on any bytes. The definitions: wire's specs/Messages.antt; how the
// answers tell them: specs/told/Asked.antt.
#![tactic(auto)]

ghost use Rattle.std.specs.Prelude.{◌≡◌, ℕ, ◌-◌, ◌<◌, ◌≢◌, true, length, get_or, None, ⊤};
ghost use Rattle.std.specs.Iterator.{at_most};
ghost use Rattle.foundation.specs.Results.{ok};
ghost use Rattle.foundation.specs.told.Located.{told_part};
ghost use Rattle.wire.specs.Wire.{cut, Message};
ghost use Rattle.wire.specs.Messages.{varint_of, index, messages};
ghost use Rattle.wire.specs.told.WireTold.{rest_of};
ghost use Rattle.messages.specs.told.Asked.{CheckedTold, FoundTold, found_or, number_told, number_in, piece_in, BytesTold, index_told, index_in, EmbeddedTold, piece_if, NextBodyTold, after_body};

pub mod repeated; // repeated.rt: repeated numbers, single and packed
pub mod reader; // reader.rt: a reader over a message

use foundation::{Located, Span};
use wire::{Field, WireError, WireValue, fields_from};

// Reads every field of a message from a place on, and answers the first refusal.
// Kept public, though no other crate calls it: it answers for any place, past the end too, and `s.part(..)` asks that the part lies in `s`.
pub fn check_from(s: Located<'_>, at: usize) -> Result<(), WireError>
    ensures { CheckedTold (cut (rest_of s.entry.base s.entry.bytes.now at)) result }
{
    for field in fields_from(s, [], at) {
        field?;
    }
    Ok(())
}

// Tests that a whole message can be cut into fields. Else the answer is the first refusal.
#[inline(always)]
pub fn check(s: Located<'_>) -> Result<(), WireError>
    ensures { CheckedTold (cut (told_part s.entry)) result }
{
    check_from(s, 0)
}

// The first occurrence of a field, of whatever wire type.
pub fn find(s: Located<'_>, number: u32) -> Option<WireValue>
    ensures { FoundTold s.entry.base s.entry.bytes.now number result }
{
    for read in fields_from(s, [number], 0) {
        let Ok(field) = read else {
            return None;
        };
        if field.number == number {
            return Some(field.value);
        }
    }
    None
}

// A field that was read: where its number is asked for and no earlier field had that number, its value is the one that was found. The answer
// is true if there is such a number.
// `iter_mut().zip(numbers)` was tried, and isn't proved: std says nothing of an area's elements once a borrow by an adapter of `iter_mut` is over.
fn keep_first<const N: usize>(
    found: &mut [Option<WireValue>; N],
    numbers: [u32; N],
    field: Field,
) -> bool
    ensures { ((i : ℕ) → i < N → get_or found.new i None ≡ found_or (get_or found.old i None) (get_or numbers.entry i 0) field.number field.value) × ((i : ℕ) → i < N → get_or found.old i None ≡ None → get_or numbers.entry i 0 ≡ field.number → result ≡ true) }
{
    let mut more = false;
    for (i, kept) in found.iter_mut().enumerate() {
        if kept.is_none() && numbers[i] == field.number {
            *kept = Some(field.value);
            more = true;
        }
    }
    more
}

// Is each of the fields found?
fn all_found<const N: usize>(found: &[Option<WireValue>; N]) -> bool
    ensures { result ≡ true → (i : ℕ) → i < N → get_or found.now i None ≢ None }
{
    for i in 0..N {
        if found[i].is_none() {
            return false;
        }
    }
    true
}

// The first occurrences of several fields, by one walk. It ends where each is found, which is looked at after each that is.
pub fn find_each<const N: usize>(s: Located<'_>, numbers: [u32; N]) -> [Option<WireValue>; N]
    ensures { (i : ℕ) → i < N → FoundTold s.entry.base s.entry.bytes.now (get_or numbers.entry i 0) (get_or result i None) }
{
    let mut found = [None; N];
    for read in fields_from(s, numbers, 0) {
        let Ok(field) = read else {
            break;
        };
        let more = keep_first(&mut found, numbers, field);
        if more && all_found(&found) {
            break;
        }
    }
    found
}

// What was found, if it is a varint.
pub fn number_in(found: Option<WireValue>) -> Option<u64>
    ensures { result ≡ number_in found }
{
    found?.varint()
}

// What was found, as an index. A number above 2^32 - 1 is no index.
pub fn index_in(found: Option<WireValue>) -> Option<u32>
    ensures { index_told result ≡ index_in found }
{
    u32::try_from(number_in(found)?).ok()
}

// What was found, if it is length-delimited: where its bytes stand.
pub fn piece_in(found: Option<WireValue>) -> Option<Span>
    ensures { result ≡ piece_in found }
{
    found?.bytes()
}

pub fn varint(s: Located<'_>, number: u32) -> Option<u64>
    ensures { (m : Message) → cut (told_part s.entry) ≡ ok m → varint_of number m ≡ number_told result }
{
    number_in(find(s, number))
}

// The bytes of a field whose first occurrence is length-delimited.
pub fn bytes(s: Located<'_>, number: u32) -> Option<Span>
    ensures { BytesTold s.entry.base s.entry.bytes.now number result }
{
    piece_in(find(s, number))
}

pub fn index(s: Located<'_>, number: u32) -> Option<u32>
    ensures { (m : Message) → cut (told_part s.entry) ≡ ok m → index number m ≡ index_told result }
{
    index_in(find(s, number))
}

// The message that a field's first occurrence holds, if the field is there: where its bytes stand. It is refused where it can't be cut.
pub fn message(s: Located<'_>, number: u32) -> Result<Option<Span>, WireError>
    ensures { EmbeddedTold s.entry.base s.entry.bytes.now number result }
{
    let Some(body) = bytes(s, number) else {
        return Ok(None);
    };
    check(s.part(body))?;
    Ok(Some(body))
}

// The body of a field, if its number is the one that is asked for.
fn body_of(asked: u32, field: Field) -> Option<Span>
    ensures { result ≡ piece_if asked field.number field.value }
{
    if field.number != asked {
        return None;
    }
    field.value.bytes()
}

// The next length-delimited occurrence of a field from a place on. Asked again from its end on, it gives the one after it.
#[inline(always)]
pub fn next_body(s: Located<'_>, number: u32, at: usize) -> Option<Span>
    ensures { NextBodyTold s.entry.base s.entry.bytes.now number at result }
{
    for read in fields_from(s, [number], at) {
        let Ok(field) = read else {
            return None;
        };
        if let Some(body) = body_of(number, field) {
            return Some(body);
        }
    }
    None
}

// A walk over the bodies of a field's length-delimited occurrences. It ends at the message's end, and where a field is refused.
#[derive(Clone, Copy)]
pub struct Bodies<'a> {
    s: Located<'a>,
    number: u32,
    at: usize,
}

impl<'a> Iterator for Bodies<'a> {
    type Item = Span;

    ghost can_next = { λ i. ⊤ };

    ghost next_gives = { λ i r t. NextBodyTold i.s.base i.s.bytes.now i.number i.at r × (t.at ≡ after_body i.at r) × (t.s ≡ i.s) × (t.number ≡ i.number) };

    ghost remaining = { λ i. at_most (length i.s.bytes.now - i.at) };

    fn next(&mut self) -> Option<Span> {
        let body = next_body(self.s, self.number, self.at)?;
        self.at = body.end;
        Some(body)
    }
}

// The bodies of a field from a place on.
pub fn bodies_from<'a>(s: Located<'a>, number: u32, at: usize) -> Bodies<'a>
    ensures { (result.s ≡ s.entry) × (result.number ≡ number) × (result.at ≡ at) }
{
    Bodies { s, number, at }
}

// Tests that each of a list's messages can be cut, before the first of them is read. Else the answer is the first refusal.
pub fn check_messages(s: Located<'_>, number: u32) -> Result<(), WireError>
    ensures { (m : Message) → cut (told_part s.entry) ≡ ok m → CheckedTold (messages number m) result }
{
    for body in bodies_from(s, number, 0) {
        check(s.part(body))?;
    }
    Ok(())
}
