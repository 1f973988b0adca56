// The first and the last character of some bytes' text. How the answers tell it: specs/told/Ends.antt.
ghost use Rattle.record_names.specs.told.Ends.{LastTold, EndsTold};

use characters::utf8_at;
use foundation::Span;

// The last character of a text, and where it begins.
#[derive(Clone, Copy)]
pub(crate) struct Last {
    pub(crate) place: usize,
    pub(crate) code: u32,
}

// The last character of some bytes' text.
pub(crate) fn last_of(s: &[u8]) -> Option<Last>
    ensures { LastTold s.now result }
{
    // A place counted on by hand: the answer is the place that the last step began at, which an iterator would have to tell besides.
    let mut at = 0;
    while let Some(character) = utf8_at(s, at) {
        if s.len() <= character.next {
            return Some(Last {
                place: at,
                code: character.value,
            });
        }
        at = character.next;
    }
    None
}

// The part between the first and the last character of some bytes' text, if it has two or more.
pub(crate) fn without_ends(s: &[u8]) -> Option<Span>
    ensures { EndsTold s.now result }
{
    let first = utf8_at(s, 0)?;
    let last = last_of(&s[first.next..])?;
    Some(Span {
        start: first.next,
        end: first.next + last.place,
    })
}
