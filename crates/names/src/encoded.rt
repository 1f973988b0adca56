// Texts that are read character by character: bytes in UTF-8, and 16-bit units. What holds of both: specs/told/Encoded.antt.
ghost use Rattle.std.specs.Prelude.{◌≡◌, true, List, ℕ, map, ◌+◌, ◌^◌, ◌≤◌, ◌<◌, length, drop, IfSome};
ghost use Rattle.std.proofs.lemmas.List.Edits.{sets};
ghost use Rattle.foundation.specs.Texts.{Text};
ghost use Rattle.characters.specs.Characters.{from_utf8, from_utf16, utf8};
ghost use Rattle.characters.specs.told.CharactersTold.{Character, utf8_at, utf16_at};
ghost use Rattle.characters.specs.told.Plain.{is_ascii, shown};
ghost use Rattle.names.specs.told.Encoded.{Decoding, bytes_decode, units_decode};

use crate::name::Change;
use characters::ascii::{ascii_bytes, ascii_units, copy_bytes, copy_units};
use characters::measure::utf8_size;
use characters::{utf8_at, utf16_at};
use foundation::Read;

pub trait Encoded: Copy {
    // Its bytes or units.
    ghost units: { Self → List ℕ };

    // The text of some, bad ones replaced.
    ghost decoded: { List ℕ → Text };

    // The character that stands first in some, which go on at a place, and the place after it.
    ghost character: { ℕ → List ℕ → Character };

    // How many bytes or units.
    fn size(self) -> usize
        ensures { result ≡ length (units self) };

    // The character at a place.
    fn character_at(self, at: usize) -> Option<Read<u32>>
        ensures { result ≡ character at (drop at (units self)) };

    // Are all characters below 128?
    fn is_plain(self) -> bool
        ensures { result ≡ is_ascii (units self) };

    // Characters below 128, written where there is room for all of them, with a change's dots and slashes. None is tested.
    // That they are below 128 and fit depends on this call and its area, so it is required, and no invariant of a text.
    fn copy_plain(self, change: Change, area: &mut [u8], at: usize)
        requires { (is_ascii (units self) ≡ true) × (at + length (units self) ≤ length area.old) }
        ensures { area.new ≡ sets area.old at (map (shown change.dots change.slashes) (units self)) };

    // How many bytes UTF-8 gives the text, where no character needs to be read to tell.
    // That this fits 64 bits is required: a caller knows it of the one text that it writes, and no type of texts has a limit.
    fn size_at_once(self) -> Option<usize>
        requires { length (utf8 (decoded (units self))) < 2 ^ 64 }
        ensures { IfSome result (λ size. size ≡ length (utf8 (decoded (units self)))) };

    ghost laws: { Decoding decoded character };
}

impl Encoded for &[u8] {
    ghost units = { λ s. s.now };

    ghost decoded = { from_utf8 };

    ghost character = { utf8_at };

    ghost laws = { bytes_decode };

    fn size(self) -> usize {
        self.len()
    }

    fn character_at(self, at: usize) -> Option<Read<u32>> {
        utf8_at(self, at)
    }

    fn is_plain(self) -> bool {
        ascii_bytes(self)
    }

    fn copy_plain(self, change: Change, area: &mut [u8], at: usize) {
        copy_bytes(self, change.dots, change.slashes, area, at)
    }

    fn size_at_once(self) -> Option<usize> {
        ascii_bytes(self).then_some(self.len())
    }
}

impl Encoded for &[u16] {
    ghost units = { λ s. s.now };

    ghost decoded = { from_utf16 };

    ghost character = { utf16_at };

    ghost laws = { units_decode };

    fn size(self) -> usize {
        self.len()
    }

    fn character_at(self, at: usize) -> Option<Read<u32>> {
        utf16_at(self, at)
    }

    fn is_plain(self) -> bool {
        ascii_units(self)
    }

    fn copy_plain(self, change: Change, area: &mut [u8], at: usize) {
        copy_units(self, change.dots, change.slashes, area, at)
    }

    fn size_at_once(self) -> Option<usize> {
        Some(utf8_size(self))
    }
}
