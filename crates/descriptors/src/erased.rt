// The part of a type at its position, by its message: its class name decides; an array goes on with its first kept argument.
// The definitions: erasure's specs/Erasure.antt; what is told: specs/told/ErasedTold.antt and `ErasedTold` in specs/told/DefaultsTold.antt.
ghost use Rattle.std.specs.Prelude.{◌≡◌, true, false, List, [], ◌∷◌, ◌++◌, ℕ, ◌+◌, ◌^◌, ◌<◌, ◌≤◌, length, get_or, Some};
ghost use Rattle.names.specs.told.Stream.{name_bytes};
ghost use Rattle.schema.specs.told.SchemaTold.{lent, Stands};
ghost use Rattle.erasure.specs.told.ErasureTold.{Means, PutSized};
ghost use Rattle.descriptors.specs.told.ErasedTold.{PrintedPut, TypePartTold};
ghost use Rattle.descriptors.specs.told.DefaultsTold.{ErasedTold};
ghost use Rattle.erasure.specs.declared.Meaning.TheVariants.{Other};

use characters::utf16_at;
use erasure::{Meaning, Position, Printed, meaning_of, printed_as, put_part};
use foundation::{Context, Located, Span, put};
use names::name::{Name, Source, change_of, character_of, part_of};
use names::stream::put_name;
use schema::Reached;
use schema::head::type_head;
use schema::name::class_name_at;
use schema::places::{bytes_of_type, first_argument};

// How a type is placed: how it was reached, whether it stands in the type table, and its position in the descriptor.
#[derive(Clone, Copy)]
pub(crate) struct Placement {
    pub reached: Reached,
    pub in_table: bool,
    pub position: Position,
}

// What is written of one type. No `Option<usize>`: a bracket is written too, and the answer that has no part is the `None` around this.
#[derive(Clone, Copy)]
enum TypePart {
    // Its part.
    Whole { size: usize },
    // [, and its first kept argument is to follow as an element.
    Bracket,
}

// Can a name, dots turned into slashes, be listed? All that are begin with k. Takes d2 by itself: the type of a slice says that each unit is
// of 16 bits, that of a context doesn't.
fn may_be_listed(d2: &[u16], name: Name) -> bool
    ensures units { (i : ℕ) → get_or d2.now i 0 < 65536 }
    ensures listed { (payload : List ℕ) → result ≡ false → Means (name_bytes payload d2.now (Some name) true) Other }
{
    let Source::D2 = name.source else {
        return true;
    };
    let Some(character) = utf16_at(part_of(d2, name.part), 0) else {
        return true;
    };
    character_of(change_of(Some(name), true), character.value) == 0x6b
}

// What a name, dots turned into slashes, means. No listed name is longer than 36 bytes.
// The limits of payload and d2 bound a name's size. They are no invariant of `Context`: what reads one entry asks for none.
fn name_meaning(context: &Context<'_>, name: Name) -> Meaning
    requires { (length context.now.payload.now ≤ 32768) × (length context.now.d2.now ≤ 32768) }
    ensures units { (i : ℕ) → get_or context.now.d2.now i 0 < 65536 }
    ensures means { Means (name_bytes context.now.payload.now context.now.d2.now (Some name) true) result }
{
    if !may_be_listed(context.d2, name) {
        return Meaning::Other;
    }
    let mut bytes = [0u8; 36];
    let size = put_name(context, Some(name), true, &mut bytes, 0);
    if 36 < size {
        return Meaning::Other;
    }
    meaning_of(&bytes[..size])
}

// L, the name with slashes for dots, and ;.
// With `at ≤ 2 ^ 62` no place overflows 64 bits. No type says it: `at` may lie past the area's end, where a write is left out.
fn put_class(context: &Context<'_>, name: Name, area: &mut [u8], at: usize) -> usize
    requires { (length context.now.payload.now ≤ 32768) × (length context.now.d2.now ≤ 32768) × (at ≤ 2 ^ 62) }
    ensures { PutSized (0x4c ∷ (name_bytes context.now.payload.now context.now.d2.now (Some name) true ++ (0x3b ∷ []))) at result area.old area.new }
{
    put(area, at, b'L');
    let next = put_name(context, Some(name), true, area, at + 1);
    put(area, next, b';');
    next + 1 - at
}

// What is printed of a type whose class name is there.
fn put_printed(
    printed: Printed,
    context: &Context<'_>,
    name: Name,
    area: &mut [u8],
    at: usize,
) -> TypePart
    requires { (length context.now.payload.now ≤ 32768) × (length context.now.d2.now ≤ 32768) × (at ≤ 2 ^ 62) }
    ensures { PrintedPut (lent context.now) name printed at result area.old area.new }
{
    match printed {
        Printed::Fixed(part) => TypePart::Whole {
            size: put_part(area, at, part),
        },
        Printed::ThroughArray => {
            put(area, at, b'[');
            TypePart::Bracket
        }
        Printed::ClassItself => TypePart::Whole {
            size: put_class(context, name, area, at),
        },
    }
}

// One type, by its class name; nothing if it has no descriptor.
fn put_type_part(
    msg: Located<'_>,
    placed: Placement,
    context: &Context<'_>,
    area: &mut [u8],
    at: usize,
) -> Option<TypePart>
    requires { (length context.now.payload.now ≤ 32768) × (length context.now.d2.now ≤ 32768) × (at ≤ 2 ^ 62) }
    ensures { (source : List ℕ) → Stands source msg.entry.bytes.now msg.entry.base → TypePartTold source (lent context.now) msg.entry.base (msg.entry.base + length msg.entry.bytes.now) placed.reached.nullable placed.position at result area.old area.new }
{
    let head = type_head(msg);
    let name = class_name_at(head.name, context)?;
    let meaning = name_meaning(context, name);
    let nullable = placed.reached.nullable || head.nullable;
    let printed = printed_as(meaning, nullable, placed.position)?;
    Some(put_printed(printed, context, name, area, at))
}

// The part of the type in a part of the decoded bytes: as many [ as arrays are nested, then what the innermost comes to. Answers how many bytes it takes;
// nothing if the type has no descriptor. Each type is read where `bytes_of_type` says.
pub(crate) fn put_erased(
    part: Span,
    placed: Placement,
    context: &Context<'_>,
    area: &mut [u8],
    at: usize,
) -> Option<usize>
    requires { (part.start ≤ part.end) × (part.end ≤ length context.now.payload.now) × (placed.reached.left ≤ 64) × (length context.now.payload.now ≤ 32768) × (length context.now.d2.now ≤ 32768) × (at ≤ 2 ^ 61) }
    ensures { ErasedTold (lent context.now) part.start part.end placed.reached.left placed.reached.nullable placed.in_table placed.position at result area.old area.new }
{
    let mut here = part;
    let mut how = placed;
    let mut next = at;
    // A `loop`: what is written of a type tells whether another follows, so there is no list to walk and no test before it.
    loop {
        let bytes = bytes_of_type(how.in_table, how.reached.left, context);
        let msg = Located::of(bytes, here);
        let one = put_type_part(msg, how, context, area, next)?;
        if let TypePart::Whole { size } = one {
            return Some(next + size - at);
        }
        let found = first_argument(msg, how.reached.left.saturating_sub(1), context)?;
        here = found.part;
        how = Placement {
            reached: found.reached,
            in_table: how.in_table || found.is_entry,
            position: Position::Element,
        };
        next += 1;
    }
}
