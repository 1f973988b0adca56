// A record's name with its size, and the words for it. How the answers tell it: specs/told/Sized.antt.
ghost use Rattle.std.specs.Prelude.{◌≡◌, ◌<◌, length};
ghost use Rattle.record_names.specs.told.Steps.{BytesName};
ghost use Rattle.record_names.specs.told.Named.{DecidedBytes, WordsFor};
ghost use Rattle.record_names.specs.told.Sized.{limit_of, ClipTold, SizeTold};

use crate::class_name::qualified_bytes;
use crate::note::{NO_TEXT, UNDECIDED, Words, words_of};
use foundation::{Context, Span};
use names::name::{Name, Operation, PREDEFINED, Source};
use names::stream::put_name;

// How far the source of a name goes.
fn limit_of(source: Source, size: usize) -> usize
    ensures { result ≡ limit_of source size }
{
    match source {
        Source::Predefined => PREDEFINED.len(),
        _ => size,
    }
}

// A name whose places are inside what it is made of.
fn clipped_name(size: usize, name: Name) -> Name
    ensures { ClipTold size name result }
{
    let end = name.part.end.min(limit_of(name.source, size));
    Name {
        part: Span {
            start: name.part.start.min(end),
            end,
        },
        size: 0,
        ..name
    }
}

// How many bytes of UTF-8 a record's name takes before its operation; 0, as in `Name`, where that is more than a note holds.
fn size_of(bytes: &[u8], name: Name) -> usize
    requires { BytesName name × (length bytes.now < 65536) }
    ensures { SizeTold bytes.now name result }
{
    let unstepped = Name {
        operation: Operation::Nothing,
        qualified: false,
        size: 0,
        ..name
    };
    // A record's name is made of bytes, so that nothing else is looked into.
    let context = Context::of_bytes(bytes);
    let size = put_name(&context, Some(unstepped), false, &mut [], 0);
    if 131072 < size {
        return 0;
    }
    size
}

// What is noted of a record, by what it builds.
pub(crate) fn words_for(bytes: &[u8], answer: Option<Option<Name>>) -> Words
    requires { DecidedBytes answer × (length bytes.now < 65536) }
    ensures { WordsFor bytes.now answer result }
{
    let Some(built) = answer else {
        return UNDECIDED;
    };
    let Some(name) = built else {
        return NO_TEXT;
    };
    let part = clipped_name(bytes.len(), name);
    let class = qualified_bytes(bytes, part);
    let size = size_of(bytes, part);
    words_of(Name { size, ..part }, class.part)
}
