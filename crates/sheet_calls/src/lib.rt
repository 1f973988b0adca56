// The functions that the static library exports: a slice is a pointer and a length.
#![tactic(auto)]

ghost use Rattle.std.specs.Prelude.{◌≡◌, ℕ, List, [], ◌∷◌, ◌+◌, ◌≤◌, T, length, get_or};
ghost use Rattle.characters.specs.WellFormed.{Units};
ghost use Rattle.inputs.specs.Inputs.{input};
ghost use Rattle.metadata.specs.Read.{read};
ghost use Rattle.promises.specs.Promises.{Promised, Enough, tells_offset, BrokeAt};
ghost use Rattle.room.specs.Room.{room};
ghost use Rattle.inputs.specs.told.OutcomesTold.{told};
ghost use Rattle.room.specs.told.RoomTold.{tells_room};
ghost use Rattle.room.specs.Exact.{RoomExact};
ghost use Rattle.strings.specs.Unused.{UnusedStrings};
ghost use Rattle.string_marks.specs.UsedStrings.{UsedStrings, MarksTell};
ghost use Rattle.string_marks.specs.told.UsedTold.{tells_used};
ghost use Rattle.converter.specs.Conversions.{old_to_new, new_to_old};
ghost use Rattle.converter.specs.told.ConversionTold.{converted_by};
ghost use Rattle.converter.specs.Statements.{OldToNewNumber, NewToOldNumber, AnswerKept, old_bytes_limit, longest_new, longest_old, written_units, ComesBackNew, ComesBackOld};
ghost use Rattle.sheet_calls.specs.Calls.{told_in, DemandWithAny, room_in, UnusedInRoom, used_in, converted_in, SameSheets};

use converter::{ConvertFault, new_to_old, old_to_new};
use inputs::outcome::{Refusal, Sizes};
use metadata::read;
use room::{RoomAnswer, room};
use string_marks::strings;

// A length is made 64 bits wide by `as`, here and below: Rust has no `From<usize>` for `u64`.
// A reading's answer as number, detail, sheet length, text length and types: 0 and 0 first where it is accepted, three zeros last where it is refused.
fn reading_answer(outcome: Result<Sizes, Refusal>) -> [u64; 5]
    ensures { (sheet text : List ℕ) → told outcome sheet text ≡ told_in result sheet text }
{
    match outcome {
        Ok(sizes) => [
            0,
            0,
            sizes.sheet as u64,
            sizes.text as u64,
            sizes.types as u64,
        ],
        Err(refusal) => {
            let (number, detail) = refusal.numbered();
            [number, detail, 0, 0, 0]
        }
    }
}

// `read`, with the answer's number, detail, sheet length, text length and types in this order. Areas of 413,695 and 65,534 bytes are always enough.
// The detail of a 7, 8, 9, 13, 14 or 17 is an offset among the decoded bytes. Of an accepted answer (number 0) it ensures what is promised of every sheet
// and, with any second one, what default descriptors say (`DemandWithAny`). Of any answer it ensures that it is that of every input which differs only in
// strings of d2 that the reading doesn't fall to (`UnusedStrings`). Nothing is asked of what is handed in.
#[unsafe(no_mangle)]
pub extern "C" fn sheet_read(
    k: i32,
    major: i32,
    minor: i32,
    patch: i32,
    d1: &[u16],
    d2: &[u16],
    ends: &[u32],
    sheet: &mut [u8],
    text: &mut [u8],
    answer: &mut [u64; 5],
)
    ensures value { read sheet.old text.old (input k (major ∷ minor ∷ patch ∷ []) d1.now d2.now ends.now) ≡ told_in answer.new sheet.new text.new }
    ensures enough { Enough sheet.old text.old (input k (major ∷ minor ∷ patch ∷ []) d1.now d2.now ends.now) (told_in answer.new sheet.new text.new) }
    ensures broke { T (tells_offset (get_or answer.new 0 0)) → BrokeAt (input k (major ∷ minor ∷ patch ∷ []) d1.now d2.now ends.now) (told_in answer.new sheet.new text.new) }
    ensures units { Units d2.now }
    ensures promised { get_or answer.new 0 0 ≡ 0 → Promised (input k (major ∷ minor ∷ patch ∷ []) d1.now d2.now ends.now) (told_in answer.new sheet.new text.new) }
    ensures demanded { get_or answer.new 0 0 ≡ 0 → DemandWithAny (input k (major ∷ minor ∷ patch ∷ []) d1.now d2.now ends.now) (told_in answer.new sheet.new text.new) }
    ensures unused { UnusedStrings sheet.old text.old (input k (major ∷ minor ∷ patch ∷ []) d1.now d2.now ends.now) (told_in answer.new sheet.new text.new) }
{
    let version = [major, minor, patch];
    *answer = reading_answer(read(k, version, d1, d2, ends, sheet, text).outcome);
}

// A room as nineteen numbers: the same five, the records by kind, the text by lists.
fn room_answer(room: Result<RoomAnswer, Refusal>) -> [u64; 19]
    ensures { tells_room room ≡ room_in result }
{
    match room {
        Ok(room) => {
            let sizes = room.sizes;
            let records = room.records;
            let texts = room.texts;
            [
                0,
                0,
                sizes.sheet as u64,
                sizes.text as u64,
                sizes.types as u64,
                records.heads as u64,
                records.constructors as u64,
                records.functions as u64,
                records.properties as u64,
                records.parameters as u64,
                records.types as u64,
                records.defaults as u64,
                records.aliases as u64,
                records.counts as u64,
                texts.properties as u64,
                texts.functions as u64,
                texts.constructors as u64,
                texts.aliases as u64,
                texts.head as u64,
            ]
        }
        Err(refusal) => {
            let mut numbers = [0; 19];
            (numbers[0], numbers[1]) = refusal.numbered();
            numbers
        }
    }
}

// `room`, with number, detail, sheet length, text length, types, how many records of kind 1, 2, .., 9, and the bytes of text of the properties, functions,
// constructors, aliases and head, in this order. It takes the input of `sheet_read` and no areas. A refusal is the one that reading gives short of 11 and
// 12, with all else 0. A text that is too long for any area is told at its true length, and the five numbers add up to it. What is told is exact, with the
// areas of any `sheet_read` of the same input (`RoomExact`), and doesn't depend on strings of d2 that the reading doesn't fall to (`UnusedInRoom`). Nothing is
// asked of what is handed in.
#[unsafe(no_mangle)]
pub extern "C" fn sheet_room(
    k: i32,
    major: i32,
    minor: i32,
    patch: i32,
    d1: &[u16],
    d2: &[u16],
    ends: &[u32],
    answer: &mut [u64; 19],
)
    ensures value { room (input k (major ∷ minor ∷ patch ∷ []) d1.now d2.now ends.now) ≡ room_in answer.new }
    ensures units { Units d2.now }
    ensures exact { RoomExact (input k (major ∷ minor ∷ patch ∷ []) d1.now d2.now ends.now) (room_in answer.new) }
    ensures unused { UnusedInRoom (input k (major ∷ minor ∷ patch ∷ []) d1.now d2.now ends.now) (room_in answer.new) }
{
    let version = [major, minor, patch];
    *answer = room_answer(room(k, version, d1, d2, ends));
}

// An answer about strings as number, detail and how many are fallen to: a refusal's is 0.
// It has the shape of `conversion_answer`, of another error: one function for both would take a trait of errors with a number, and its law.
fn used_answer(used: Result<usize, Refusal>) -> [u64; 3]
    ensures { tells_used used ≡ used_in result }
{
    match used {
        Ok(count) => [0, 0, count as u64],
        Err(refusal) => {
            let (number, detail) = refusal.numbered();
            [number, detail, 0]
        }
    }
}

// `strings` of string_marks, with number, detail and how many strings of d2 the reading falls to, in this order. It takes the input of `sheet_read` and a byte
// for each string: 1 is put where the reading falls to it and 0 where it doesn't, and bytes past the strings stay. A refusal is the one that `sheet_room`
// gives, or 12 where there are fewer bytes than strings, with 0 and the bytes as they were. An input that differs only in strings without a 1 is one of those
// that the clauses `unused` of `sheet_read` and `sheet_room` speak of (`MarksTell`). Nothing is asked of what is handed in.
#[unsafe(no_mangle)]
pub extern "C" fn sheet_strings(
    k: i32,
    major: i32,
    minor: i32,
    patch: i32,
    d1: &[u16],
    d2: &[u16],
    ends: &[u32],
    used: &mut [u8],
    answer: &mut [u64; 3],
)
    ensures value { UsedStrings (input k (major ∷ minor ∷ patch ∷ []) d1.now d2.now ends.now) used.old used.new (used_in answer.new) }
    ensures tell { get_or answer.new 0 0 ≡ 0 → MarksTell (input k (major ∷ minor ∷ patch ∷ []) d1.now d2.now ends.now) used.new }
{
    let version = [major, minor, patch];
    *answer = used_answer(strings(k, version, d1, d2, ends, used));
}

// A conversion's answer as number, detail and length in units: a refusal's length is 0.
fn conversion_answer(converted: Result<usize, ConvertFault>) -> [u64; 3]
    ensures { (units : List ℕ) → converted_by converted units ≡ converted_in result units }
{
    match converted {
        Ok(length) => [0, 0, length as u64],
        Err(fault) => {
            let (number, detail) = fault.numbered();
            [number, detail, 0]
        }
    }
}

// `old_to_new`, with the answer's number, detail and length in units in this order: an old d1 to its form with the marker. Each refusal is given
// exactly when its cause is the first that applies; an area of 28,673 units is always enough. What is converted is read alike in both forms, and
// comes back from `sheet_new_to_old` if it was as packing makes it. Nothing is asked of what is handed in.
#[unsafe(no_mangle)]
pub extern "C" fn sheet_old_to_new(d1: &[u16], units: &mut [u16], answer: &mut [u64; 3])
    ensures value { old_to_new units.old d1.now ≡ converted_in answer.new units.new }
    ensures refusals { OldToNewNumber units.old d1.now (get_or answer.new 0 0) }
    ensures enough { longest_new ≤ length units.old → get_or answer.new 0 0 ≡ 12 → ⊥ }
    ensures kept { AnswerKept units.old d1.now (converted_in answer.new units.new) }
    ensures back { get_or answer.new 0 0 ≡ 0 → ComesBackOld d1.now (converted_in answer.new units.new) }
    ensures sheets { get_or answer.new 0 0 ≡ 0 → SameSheets d1.now (written_units (converted_in answer.new units.new)) }
{
    *answer = conversion_answer(old_to_new(d1, units));
}

// `new_to_old`, with the same answer: a d1 with its marker to the old form. An area of 37,448 units is always enough. What is converted comes back from
// `sheet_old_to_new`, up to 28,672 bytes, and is read alike in both forms.
#[unsafe(no_mangle)]
pub extern "C" fn sheet_new_to_old(d1: &[u16], units: &mut [u16], answer: &mut [u64; 3])
    ensures value { new_to_old units.old d1.now ≡ converted_in answer.new units.new }
    ensures refusals { NewToOldNumber units.old d1.now (get_or answer.new 0 0) }
    ensures enough { longest_old ≤ length units.old → get_or answer.new 0 0 ≡ 12 → ⊥ }
    ensures kept { AnswerKept units.old d1.now (converted_in answer.new units.new) }
    ensures back { get_or answer.new 0 0 ≡ 0 → ComesBackNew d1.now (converted_in answer.new units.new) }
    ensures sheets { get_or answer.new 0 0 ≡ 0 → length d1.now ≤ 1 + old_bytes_limit → SameSheets d1.now (written_units (converted_in answer.new units.new)) }
{
    *answer = conversion_answer(new_to_old(d1, units));
}
