// Works each record of an index out, once. The definition: specs/told/Lookups.antt, `NotesOf`; how the answers tell it: specs/told/Resolved.antt.
ghost use Rattle.std.specs.Prelude.{◌≡◌, List, ℕ, ◌+◌, ◌*◌, ◌<◌, ◌≤◌, length, set};
ghost use Rattle.names.specs.Records.{Record};
ghost use Rattle.names.specs.told.Index.{IndexOf};
ghost use Rattle.lookup.specs.told.Lookups.{NotesOf};
ghost use Rattle.lookup.specs.told.Resolved.{OneTold};

use crate::place_of;
use names::records::RECORD_WORDS;
use record_names::record_words;

// Puts what record `at` builds in place of where it stands.
// That places fit 16 bits is required here, and is no type's fact: `resolve` has tested it once.
fn resolve_one(bytes: &[u8], notes: &mut [u64], at: usize)
    requires { length bytes.now < 65536 }
    ensures { OneTold bytes.now notes.old notes.new at }
{
    let Some(place) = place_of(bytes, notes, at) else {
        return;
    };
    let words = record_words(bytes, place);
    let i = RECORD_WORDS * at;
    notes[i] = words.place;
    notes[i + 1] = words.steps;
}

// Each of the records that are noted, worked out.
pub fn resolve(bytes: &[u8], notes: &mut [u64], count: usize)
    ensures { (records : List Record) → length bytes.now < 65536 → IndexOf bytes.now notes.old count records → NotesOf bytes.now notes.new count records }
{
    // Places of a longer payload fit no word; none is read.
    if 65535 < bytes.len() {
        return;
    }
    for at in 0..count {
        resolve_one(bytes, notes, at);
    }
}
