// Characters: UTF-8 and UTF-16 read with replacement, UTF-8 written. The definitions: specs/Characters.antt; how the answers tell them:
// specs/told/CharactersTold.antt.
#![tactic(auto)]

ghost use Rattle.std.specs.Prelude.{◌≡◌, ◌+◌, ◌*◌, ◌^◌, ◌≤◌, ◌<◌, length, drop};
ghost use Rattle.std.proofs.lemmas.List.Edits.{sets};
ghost use Rattle.std.proofs.Math.Option.{some};
ghost use Rattle.characters.specs.Characters.{width};
ghost use Rattle.characters.specs.told.Places.{place_of};
ghost use Rattle.characters.specs.told.CharactersTold.{character_read, lead_byte, lead_byte_of, first_byte_told, ranges, go_on, utf8_at, paired_at, utf16_at, place_told, PutCharacter};

use foundation::{Read, put};

pub mod ascii; // ascii.rt: texts of characters below 128
pub mod measure; // measure.rt: how long texts of 16-bit units are in UTF-8

// U+FFFD for what is no character.
fn replaced(next: usize) -> Option<Read<u32>>
    ensures { result ≡ character_read 0xfffd next }
{
    Some(Read {
        value: 0xfffd,
        next,
    })
}

// What the first byte of several says of its character: its own bits, how many bytes follow it, and the least and the greatest of what
// may follow first.
#[derive(Clone, Copy)]
struct FirstByte {
    bits: u32,
    following: usize,
    low: u32,
    high: u32,
}

fn leads(bits: u32, following: usize, low: u32, high: u32) -> Option<FirstByte>
    ensures { first_byte_told result ≡ some (lead_byte bits (ranges following low high)) }
{
    Some(FirstByte {
        bits,
        following,
        low,
        high,
    })
}

// Unicode's table 3-7.
fn first_byte(byte: u8) -> Option<FirstByte>
    requires { 0x80 ≤ byte }
    ensures { first_byte_told result ≡ lead_byte_of byte }
{
    let n = u32::from(byte);
    match byte {
        0xc2..=0xdf => leads(n % 32, 1, 0x80, 0xbf),
        0xe0 => leads(n % 16, 2, 0xa0, 0xbf),
        0xe1..=0xec => leads(n % 16, 2, 0x80, 0xbf),
        0xed => leads(n % 16, 2, 0x80, 0x9f),
        0xee..=0xef => leads(n % 16, 2, 0x80, 0xbf),
        0xf0 => leads(n % 8, 3, 0x90, 0xbf),
        0xf1..=0xf3 => leads(n % 8, 3, 0x80, 0xbf),
        0xf4 => leads(n % 8, 3, 0x80, 0x8f),
        _ => None,
    }
}

// The character that goes on at `at` after its first byte; U+FFFD if one of the bytes that are wanted is missing.
fn go_on(s: &[u8], at: usize, first: FirstByte) -> Option<Read<u32>>
    requires { ((first.bits + 1) * 64 ^ first.following ≤ 2 ^ 24) × (at ≤ length s.now) }
    ensures { result ≡ go_on (ranges first.following first.low first.high) first.bits at (drop at s.now) }
{
    let mut code = first.bits;
    let mut low = first.low;
    let mut high = first.high;
    let next = at + first.following;
    for i in at..next {
        if s.len() <= i {
            return replaced(i);
        }
        let byte = u32::from(s[i]);
        if byte < low || high < byte {
            return replaced(i);
        }
        code = code * 64 + byte % 64;
        low = 0x80;
        high = 0xbf;
    }
    Some(Read { value: code, next })
}

// The character at a place. Most have one byte.
pub fn utf8_at(s: &[u8], at: usize) -> Option<Read<u32>>
    ensures { result ≡ utf8_at at (drop at s.now) }
{
    if s.len() <= at {
        return None;
    }
    let byte = s[at];
    let next = at + 1;
    if byte < 0x80 {
        return Some(Read {
            value: u32::from(byte),
            next,
        });
    }
    let Some(first) = first_byte(byte) else {
        return replaced(next);
    };
    go_on(s, next, first)
}

// The character that a high surrogate begins: the next unit, at `at`, is its other half, or it is alone.
fn paired_at(units: &[u16], at: usize, high: u32) -> Option<Read<u32>>
    requires { (0xd800 ≤ high) × (high ≤ 0xdbff) }
    ensures { result ≡ paired_at high at (drop at units.now) }
{
    if units.len() <= at {
        return replaced(at);
    }
    let low = u32::from(units[at]);
    if low < 0xdc00 || 0xdfff < low {
        return replaced(at);
    }
    Some(Read {
        value: 0x10000 + (high - 0xd800) * 0x400 + (low - 0xdc00),
        next: at + 1,
    })
}

// The character at a place of a string of 16-bit units.
pub fn utf16_at(units: &[u16], at: usize) -> Option<Read<u32>>
    ensures { result ≡ utf16_at at (drop at units.now) }
{
    if units.len() <= at {
        return None;
    }
    let unit = u32::from(units[at]);
    let next = at + 1;
    if unit < 0xd800 || 0xdfff < unit {
        return Some(Read { value: unit, next });
    }
    if 0xdbff < unit {
        return replaced(next);
    }
    paired_at(units, next, unit)
}

// How many bytes UTF-8 gives a character.
pub fn width_of(code: u32) -> usize
    ensures { result ≡ width code }
{
    if code < 0x80 {
        return 1;
    }
    if code < 0x800 {
        return 2;
    }
    if code < 0x10000 {
        return 3;
    }
    4
}

// How many bytes of `s` stand before byte place `place` of their replaced text. A loop by hand: two places are counted, and what is no character takes
// one byte of `s` or a few, but always three of the text.
pub fn find_place(s: &[u8], place: usize) -> Option<usize>
    ensures { place_told result ≡ place_of place s.now }
{
    let mut left = place;
    let mut at = 0;
    while 0 < left {
        let character = utf8_at(s, at)?;
        let size = width_of(character.value);
        if left < size {
            return None;
        }
        left -= size;
        at = character.next;
    }
    Some(at)
}

// Some bytes in the area. What would go past its end is left out. Nothing is done where all would, so that no place wraps.
// A function of its own, since `sheet::put_all` calls the library's copy: with it a character of two bytes takes 7.6 ns, with this loop 2.5 ns.
fn put_bytes<const N: usize>(area: &mut [u8], at: usize, bytes: [u8; N])
    ensures { area.new ≡ sets area.old at bytes.entry }
{
    if area.len() <= at {
        return;
    }
    for (i, byte) in bytes.iter().enumerate() {
        put(area, at + i, *byte);
    }
}

// A character in UTF-8 in the area, as far as it goes. Answers how many bytes that takes.
pub fn put_character(area: &mut [u8], at: usize, code: u32) -> usize
    ensures { PutCharacter code at result area.old area.new }
{
    if code < 0x80 {
        put(area, at, code as u8);
        return 1;
    }
    let last = (0x80 + code % 64) as u8;
    if code < 0x800 {
        put_bytes(area, at, [(0xc0 + code / 64) as u8, last]);
        return 2;
    }
    let middle = (0x80 + code / 64 % 64) as u8;
    if code < 0x10000 {
        put_bytes(area, at, [(0xe0 + code / 64 / 64) as u8, middle, last]);
        return 3;
    }
    let first = (0xf0 + code / 64 / 64 / 64 % 8) as u8;
    let second = (0x80 + code / 64 / 64 % 64) as u8;
    put_bytes(area, at, [first, second, middle, last]);
    4
}
