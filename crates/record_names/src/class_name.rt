// A record's name as a class name: without a leading L and a trailing ; if both are there. The definition: names' specs/Names.antt,
// `unwrapped`; how the answers tell it: specs/told/ClassNames.antt.
ghost use Rattle.std.specs.Prelude.{◌≡◌};
ghost use Rattle.record_names.specs.told.Steps.{BytesName};
ghost use Rattle.record_names.specs.told.ClassNames.{UnwrapTold, qualified_part, ClassTold};

use crate::ends::last_of;
use characters::utf8_at;
use foundation::Span;
use names::name::{Name, PREDEFINED, base_text, instead};

// The part between a leading L and a trailing ; of some bytes' text, every character `from` become `to`.
// Two numbers, as in `Name` and for `instead`: a struct of both would be made at each of the two calls.
fn unwrapped_part(s: &[u8], from: u32, to: u32) -> Option<Span>
    ensures { UnwrapTold s.now from to result }
{
    let first = utf8_at(s, 0)?;
    if instead(from, to, first.value) != 0x4c {
        return None;
    }
    let last = last_of(&s[first.next..])?;
    if instead(from, to, last.code) != 0x3b {
        return None;
    }
    Some(Span {
        start: first.next,
        end: first.next + last.place,
    })
}

// A name as a class name, made of another part of its source.
pub(crate) fn qualified_part(name: Name, part: Span) -> Name
    ensures { result ≡ qualified_part name part }
{
    Name {
        part,
        qualified: true,
        size: 0,
        ..name
    }
}

// The class name of a record's name, when the record is worked out.
pub(crate) fn qualified_bytes(payload: &[u8], name: Name) -> Name
    requires { BytesName name }
    ensures { ClassTold payload.now name result }
{
    let s = base_text(payload, &PREDEFINED, name.source, name.part);
    let Some(part) = unwrapped_part(s, name.from, name.to) else {
        return qualified_part(name, name.part);
    };
    qualified_part(name, part.moved(name.part.start))
}
