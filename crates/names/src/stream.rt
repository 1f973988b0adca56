// Names written: straight from their source into the text area, character by character.
ghost use Rattle.std.specs.Prelude.{◌≡◌, true, false, ◌+◌, ◌^◌, ◌<◌, map, length};
ghost use Rattle.std.proofs.lemmas.List.Edits.{sets};
ghost use Rattle.characters.specs.Characters.{utf8};
ghost use Rattle.names.specs.told.Name.{source_text, fitted, is_measured};
ghost use Rattle.names.specs.told.Stream.{changed, changed_bytes, KeepsWidth, fitted_of, sized_bytes, name_bytes, PutText, NoneReplaced};

use crate::encoded::Encoded;
use crate::name::{Change, Name, PREDEFINED, Source, change_of, character_of, part_of};
use foundation::{Context, Read, Span};

// A text, each character changed, one by one. Answers the place after it.
// That this place fits 64 bits depends on what one call writes and where, so it is required here and below, and no invariant of a text.
fn put_characters<E: Encoded>(text: E, change: Change, area: &mut [u8], at: usize) -> usize
    requires { at + length (changed_bytes change (E.decoded (E.units text))) < 2 ^ 64 }
    ensures { PutText (changed_bytes change (E.decoded (E.units text))) at result area.old area.new }
{
    // Two places counted on by hand, here and in `put_fitted`: each step tells the next one of both, which is where an iterator would keep them too.
    let mut i = 0;
    let mut to = at;
    while let Some(character) = text.character_at(i) {
        let code = character_of(change, character.value);
        to += characters::put_character(area, to, code);
        i = character.next;
    }
    to
}

// Does a change keep how many bytes each character takes?
fn keeps_width(change: Change) -> bool
    ensures { result ≡ true → KeepsWidth change }
{
    characters::width_of(change.from) == characters::width_of(change.to)
}

// The place after a text, each character changed, where nothing is written: at once where no character's width changes and its size can
// be told without reading it.
fn past_text<E: Encoded>(text: E, change: Change, at: usize) -> usize
    requires { at + length (changed_bytes change (E.decoded (E.units text))) < 2 ^ 64 }
    ensures { result ≡ at + length (changed_bytes change (E.decoded (E.units text))) }
{
    if keeps_width(change) {
        if let Some(size) = text.size_at_once() {
            return at + size;
        }
    }
    put_characters(text, change, &mut [0u8; 0], at)
}

// Is no character replaced, but / and $ by dots and dots by slashes?
fn replaces_none(change: Change) -> bool
    ensures { result ≡ true → NoneReplaced change }
{
    !change.dollars && change.from == change.to
}

// A text, each character changed. It is written at once where its characters are below 128, none is replaced, and there is room for all.
// Where there is room for none, as in measuring, it is only measured. Where there is room for a part, it is walked no further than that.
fn put_text<E: Encoded>(text: E, change: Change, area: &mut [u8], at: usize) -> usize
    requires { at + length (changed_bytes change (E.decoded (E.units text))) < 2 ^ 64 }
    ensures { PutText (changed_bytes change (E.decoded (E.units text))) at result area.old area.new }
{
    if replaces_none(change) && text.is_plain() {
        let next = at + text.size();
        if area.len() <= at {
            return next;
        }
        if next <= area.len() {
            text.copy_plain(change, area, at);
            return next;
        }
    }
    if area.len() <= at {
        return past_text(text, change, at);
    }
    if area.len() - at < text.size() {
        return put_first(text, change, area, at);
    }
    put_characters(text, change, area, at)
}

// What is written next of a text whose size is noted, and where it goes on.
fn fitted_of(character: Option<Read<u32>>, change: Change, left: usize, end: usize) -> Read<u32>
    ensures { result ≡ fitted_of change left end character }
{
    let ended = Read {
        value: 0,
        next: end,
    };
    let Some(read) = character else {
        return ended;
    };
    let code = character_of(change, read.value);
    if left < characters::width_of(code) {
        return ended;
    }
    Read {
        value: code,
        next: read.next,
    }
}

// A text, made to take `size` bytes, as far as the area goes: what is past its end is not walked.
fn put_fitted<E: Encoded>(text: E, change: Change, size: usize, area: &mut [u8], at: usize)
    requires { at + size < 2 ^ 64 }
    ensures { area.new ≡ sets area.old at (utf8 (fitted size (map (changed change) (E.decoded (E.units text))))) }
{
    let end = text.size();
    let mut i = 0;
    let mut to = at;
    let mut left = size;
    while 0 < left {
        if area.len() <= to {
            return;
        }
        let one = fitted_of(text.character_at(i), change, left, end);
        let taken = characters::put_character(area, to, one.value);
        to += taken;
        left -= taken;
        i = one.next;
    }
}

// A text that may go past the end of the area: measured, and walked only as far as the area goes.
fn put_first<E: Encoded>(text: E, change: Change, area: &mut [u8], at: usize) -> usize
    requires { at + length (changed_bytes change (E.decoded (E.units text))) < 2 ^ 64 }
    ensures { PutText (changed_bytes change (E.decoded (E.units text))) at result area.old area.new }
{
    let next = past_text(text, change, at);
    put_fitted(text, change, next - at, area, at);
    next
}

// A text whose size is noted: at once where it is made of characters below 128, none is replaced, and there is room for it.
fn put_measured<E: Encoded>(text: E, change: Change, size: usize, area: &mut [u8], at: usize)
    requires { at + size < 2 ^ 64 }
    ensures { area.new ≡ sets area.old at (utf8 (fitted size (map (changed change) (E.decoded (E.units text))))) }
{
    if text.size() == size && replaces_none(change) && at + size <= area.len() && text.is_plain() {
        text.copy_plain(change, area, at);
    } else {
        put_fitted(text, change, size, area, at);
    }
}

// The characters of a name's source, changed, where their size is noted. Where there is room for none, nothing is walked.
// Bytes and units are of two types, so each arm, here and in `put_walked`, calls the writer itself: no slice stands for both.
// One function for both would take a writer that is generic over `Encoded`, which no closure is.
fn put_noted(context: &Context<'_>, name: Name, change: Change, area: &mut [u8], at: usize) -> usize
    requires { (is_measured name.size ≡ true) × (at + name.size < 2 ^ 64) }
    ensures { PutText (sized_bytes name.size change (source_text context.now.payload.now context.now.d2.now name.source name.part)) at result area.old area.new }
{
    let part = name.part;
    let size = name.size;
    let next = at + size;
    if area.len() <= at {
        return next;
    }
    match name.source {
        Source::Payload => put_measured(part_of(context.payload, part), change, size, area, at),
        Source::Predefined => put_measured(part_of(&PREDEFINED, part), change, size, area, at),
        Source::D2 => put_measured(part_of(context.d2, part), change, size, area, at),
    }
    next
}

fn is_measured(size: usize) -> bool
    ensures { result ≡ is_measured size }
{
    1 <= size && size <= 131072
}

// The characters of a name's source, changed, walked.
fn put_walked(
    context: &Context<'_>,
    name: Name,
    change: Change,
    area: &mut [u8],
    at: usize,
) -> usize
    requires { (is_measured name.size ≡ false) × (at + length (sized_bytes name.size change (source_text context.now.payload.now context.now.d2.now name.source name.part)) < 2 ^ 64) }
    ensures { PutText (sized_bytes name.size change (source_text context.now.payload.now context.now.d2.now name.source name.part)) at result area.old area.new }
{
    let part = name.part;
    match name.source {
        Source::Payload => put_text(part_of(context.payload, part), change, area, at),
        Source::Predefined => put_text(part_of(&PREDEFINED, part), change, area, at),
        Source::D2 => put_text(part_of(context.d2, part), change, area, at),
    }
}

// A name's text in UTF-8, as far as the area goes, and nothing where there is no name. Answers the place after it.
// Callers show that this place fits 64 bits: by the limits of payload and d2, and of the place where they write.
#[inline(always)]
pub fn put_name(
    context: &Context<'_>,
    name: Option<Name>,
    slashes: bool,
    area: &mut [u8],
    at: usize,
) -> usize
    requires { at + length (name_bytes context.now.payload.now context.now.d2.now name slashes) < 2 ^ 64 }
    ensures { PutText (name_bytes context.now.payload.now context.now.d2.now name slashes) at result area.old area.new }
{
    let Some(name) = name else {
        return at;
    };
    let change = change_of(Some(name), slashes);
    if is_measured(name.size) {
        return put_noted(context, name, change, area, at);
    }
    put_walked(context, name, change, area, at)
}
