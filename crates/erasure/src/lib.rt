// What class names mean, and the erased parts that are printed whatever the input. The definitions: specs/Erasure.antt; how answers tell them:
// specs/told/ErasureTold.antt.
#![tactic(auto)]

ghost use Rattle.std.specs.Prelude.{◌≡◌, true, [], ◌∷◌, ◌<◌};
ghost use Rattle.erasure.specs.Erasure.{letter, print_returned};
ghost use Rattle.erasure.specs.declared.Part.TheVariants as parts;
ghost use Rattle.erasure.specs.told.ErasureTold.{Means, CanBe, IsRow, primitive_told, primitive_at, class_told, class_at, fixed_told, fixed_part, of_table, PutPart, boxed_at, PrintsAs};

// The eight primitives.
#[derive(Clone, Copy)]
pub enum Primitive {
    Boolean,
    Byte,
    Char,
    Short,
    Int,
    Long,
    Float,
    Double,
}

impl Primitive {
    // By its number: 0 to 7, past the end the last. Kept public, here and below, for callers that have a number; the crates here name the variants.
    // No `From<usize>`: no plainer, since a caller sees at `of` that its number is looked up.
    pub fn of(number: usize) -> Primitive
        ensures { primitive_told result ≡ primitive_at number }
    {
        match number {
            0 => Primitive::Boolean,
            1 => Primitive::Byte,
            2 => Primitive::Char,
            3 => Primitive::Short,
            4 => Primitive::Int,
            5 => Primitive::Long,
            6 => Primitive::Float,
            _ => Primitive::Double,
        }
    }
}

// The classes that are printed whatever the input: of boxed primitives, those of the JVM that the table maps to, Unit, and what a suspending function
// takes last.
#[derive(Clone, Copy)]
pub enum Class {
    Boxed(Primitive),
    Object,
    String,
    CharSequence,
    Throwable,
    Number,
    Comparable,
    Enum,
    Annotation,
    Iterable,
    Collection,
    List,
    Set,
    Map,
    Unit,
    Continuation,
}

impl Class {
    // By its number: 0 to 7 the boxes, 8 to 20 those of the table, 21 Unit, 22 and past it the continuation. Kept public for callers that have a number.
    pub fn of(number: usize) -> Class
        ensures { class_told result ≡ class_at number }
    {
        match number {
            0..=7 => Class::Boxed(Primitive::of(number)),
            8 => Class::Object,
            9 => Class::String,
            10 => Class::CharSequence,
            11 => Class::Throwable,
            12 => Class::Number,
            13 => Class::Comparable,
            14 => Class::Enum,
            15 => Class::Annotation,
            16 => Class::Iterable,
            17 => Class::Collection,
            18 => Class::List,
            19 => Class::Set,
            20 => Class::Map,
            21 => Class::Unit,
            _ => Class::Continuation,
        }
    }
}

// What a class name means.
#[derive(Clone, Copy)]
pub enum Meaning {
    Primitive(Primitive),
    PrimitiveArray(Primitive),
    Array,
    Unit,
    Nothing,
    Class(Class),
    // A class that isn't listed, which is itself.
    Other,
}

// Where a type stands.
#[derive(Clone, Copy, PartialEq, Eq)]
pub enum Position {
    Parameter,
    Element,
    Return,
}

// A part that no name of the input enters.
#[derive(Clone, Copy)]
pub enum Part {
    Letter(Primitive),
    // [ and the letter.
    LetterArray(Primitive),
    // The class of a boxed one.
    Boxed(Primitive),
    Class(Class),
    Unit,
    // What a suspending function takes last.
    Continuation,
    Void,
}

impl Part {
    // By its number: 0 to 7 the letters, 8 to 15 arrays of them, 16 to 23 the boxes, 24 to 36 the classes of the table, 37 Unit, 38 the continuation, 39
    // and past it V. Kept public for callers that have a number.
    pub fn of(number: usize) -> Part
        ensures { fixed_told result ≡ fixed_part number }
    {
        match number {
            0..=7 => Part::Letter(Primitive::of(number)),
            8..=15 => Part::LetterArray(Primitive::of(number - 8)),
            16..=23 => Part::Boxed(Primitive::of(number - 16)),
            24..=36 => Part::Class(Class::of(number - 16)),
            37 => Part::Unit,
            38 => Part::Continuation,
            _ => Part::Void,
        }
    }
}

// What is printed of a type that has a descriptor.
#[derive(Clone, Copy)]
pub enum Printed {
    Fixed(Part),
    // An array of its first kept argument.
    ThroughArray,
    // The class that the input names.
    ClassItself,
}

// By a name's hash the row that it can be, if any. 36 is none: 128 `Option`s, written out, would be no plainer than 128 bytes.
static ROWS: [u8; 128] = *b"\
    \x07\x24\x24\x18\x24\x15\x24\x24\x24\x24\x24\x24\x05\x24\x24\x24\
    \x24\x12\x24\x16\x24\x14\x24\x19\x24\x24\x00\x24\x1a\x24\x24\x24\
    \x24\x24\x24\x24\x02\x24\x24\x24\x24\x24\x24\x24\x24\x1b\x06\x04\
    \x24\x17\x24\x24\x24\x24\x13\x24\x10\x24\x24\x03\x11\x09\x0a\x24\
    \x08\x0f\x0e\x0c\x24\x24\x24\x0d\x24\x22\x1c\x24\x24\x24\x24\x0b\
    \x23\x1d\x24\x24\x24\x20\x1e\x24\x24\x24\x24\x24\x21\x1f\x24\x24\
    \x24\x24\x24\x24\x24\x24\x24\x24\x24\x24\x24\x24\x24\x24\x24\x24\
    \x24\x24\x24\x24\x24\x24\x24\x24\x24\x24\x24\x24\x01\x24\x24\x24";

// The row of the table that `name` can be, by its length, its eighth byte and its last, which no two rows have in common. A row is told by its
// number, since a byte of `ROWS` has room for no more.
fn row_of(name: &[u8]) -> Option<usize>
    ensures { CanBe name.now result }
{
    let n = name.len();
    if n < 8 || 36 < n || name[0] != b'k' {
        return None;
    }
    let hash = (n + usize::from(name[7]) + 3 * usize::from(name[n - 1])) % 128;
    let row = usize::from(ROWS[hash]);
    (row < 36).then_some(row)
}

// The table: names, and what each means.
static TABLE: [(&[u8], Meaning); 36] = [
    (b"kotlin/Boolean", Meaning::Primitive(Primitive::Boolean)),
    (b"kotlin/Byte", Meaning::Primitive(Primitive::Byte)),
    (b"kotlin/Char", Meaning::Primitive(Primitive::Char)),
    (b"kotlin/Short", Meaning::Primitive(Primitive::Short)),
    (b"kotlin/Int", Meaning::Primitive(Primitive::Int)),
    (b"kotlin/Long", Meaning::Primitive(Primitive::Long)),
    (b"kotlin/Float", Meaning::Primitive(Primitive::Float)),
    (b"kotlin/Double", Meaning::Primitive(Primitive::Double)),
    (
        b"kotlin/BooleanArray",
        Meaning::PrimitiveArray(Primitive::Boolean),
    ),
    (
        b"kotlin/ByteArray",
        Meaning::PrimitiveArray(Primitive::Byte),
    ),
    (
        b"kotlin/CharArray",
        Meaning::PrimitiveArray(Primitive::Char),
    ),
    (
        b"kotlin/ShortArray",
        Meaning::PrimitiveArray(Primitive::Short),
    ),
    (b"kotlin/IntArray", Meaning::PrimitiveArray(Primitive::Int)),
    (
        b"kotlin/LongArray",
        Meaning::PrimitiveArray(Primitive::Long),
    ),
    (
        b"kotlin/FloatArray",
        Meaning::PrimitiveArray(Primitive::Float),
    ),
    (
        b"kotlin/DoubleArray",
        Meaning::PrimitiveArray(Primitive::Double),
    ),
    (b"kotlin/Array", Meaning::Array),
    (b"kotlin/Unit", Meaning::Unit),
    (b"kotlin/Nothing", Meaning::Nothing),
    (b"kotlin/Any", Meaning::Class(Class::Object)),
    (b"kotlin/String", Meaning::Class(Class::String)),
    (b"kotlin/CharSequence", Meaning::Class(Class::CharSequence)),
    (b"kotlin/Throwable", Meaning::Class(Class::Throwable)),
    (b"kotlin/Number", Meaning::Class(Class::Number)),
    (b"kotlin/Comparable", Meaning::Class(Class::Comparable)),
    (b"kotlin/Enum", Meaning::Class(Class::Enum)),
    (b"kotlin/Annotation", Meaning::Class(Class::Annotation)),
    (
        b"kotlin/collections/Iterable",
        Meaning::Class(Class::Iterable),
    ),
    (
        b"kotlin/collections/Collection",
        Meaning::Class(Class::Collection),
    ),
    (
        b"kotlin/collections/MutableCollection",
        Meaning::Class(Class::Collection),
    ),
    (b"kotlin/collections/List", Meaning::Class(Class::List)),
    (
        b"kotlin/collections/MutableList",
        Meaning::Class(Class::List),
    ),
    (b"kotlin/collections/Set", Meaning::Class(Class::Set)),
    (b"kotlin/collections/MutableSet", Meaning::Class(Class::Set)),
    (b"kotlin/collections/Map", Meaning::Class(Class::Map)),
    (b"kotlin/collections/MutableMap", Meaning::Class(Class::Map)),
];

// A row of the table.
fn row_at(row: usize) -> (&'static [u8], Meaning)
    requires { row < 36 }
    ensures { IsRow row result }
{
    TABLE[row]
}

// What a class name, dots turned into slashes, means.
pub fn meaning_of(name: &[u8]) -> Meaning
    ensures means { Means name.now result }
    ensures table { of_table result ≡ true }
{
    match row_of(name) {
        Some(row) => {
            let (listed, meaning) = row_at(row);
            if name == listed {
                meaning
            } else {
                Meaning::Other
            }
        }
        None => Meaning::Other,
    }
}

#[tactic(auto, unfolding(crate::specs::Erasure::print, characters::specs::Characters::utf8, characters::specs::Characters::utf8_of))]
fn array_of(primitive: Primitive) -> &'static [u8]
    ensures { result.now ≡ print_returned (fixed_told (parts.LetterArray primitive)) }
{
    match primitive {
        Primitive::Boolean => b"[Z",
        Primitive::Byte => b"[B",
        Primitive::Char => b"[C",
        Primitive::Short => b"[S",
        Primitive::Int => b"[I",
        Primitive::Long => b"[J",
        Primitive::Float => b"[F",
        Primitive::Double => b"[D",
    }
}

// The letter alone: it stands last in its array's text.
#[tactic(auto, unfolding(crate::specs::Erasure::print))]
fn letter_of(primitive: Primitive) -> &'static [u8]
    ensures { result.now ≡ letter (primitive_told primitive) ∷ [] }
{
    &array_of(primitive)[1..]
}

fn box_of(primitive: Primitive) -> &'static [u8]
    ensures { result.now ≡ print_returned (fixed_told (parts.Boxed primitive)) }
{
    match primitive {
        Primitive::Boolean => b"Ljava/lang/Boolean;",
        Primitive::Byte => b"Ljava/lang/Byte;",
        Primitive::Char => b"Ljava/lang/Character;",
        Primitive::Short => b"Ljava/lang/Short;",
        Primitive::Int => b"Ljava/lang/Integer;",
        Primitive::Long => b"Ljava/lang/Long;",
        Primitive::Float => b"Ljava/lang/Float;",
        Primitive::Double => b"Ljava/lang/Double;",
    }
}

#[tactic(auto, unfolding(crate::specs::Erasure::print, characters::specs::Characters::utf8, characters::specs::Characters::utf8_of))]
fn class_of(class: Class) -> &'static [u8]
    ensures { result.now ≡ print_returned (fixed_told (parts.Class class)) }
{
    match class {
        Class::Boxed(primitive) => box_of(primitive),
        Class::Object => b"Ljava/lang/Object;",
        Class::String => b"Ljava/lang/String;",
        Class::CharSequence => b"Ljava/lang/CharSequence;",
        Class::Throwable => b"Ljava/lang/Throwable;",
        Class::Number => b"Ljava/lang/Number;",
        Class::Comparable => b"Ljava/lang/Comparable;",
        Class::Enum => b"Ljava/lang/Enum;",
        Class::Annotation => b"Ljava/lang/annotation/Annotation;",
        Class::Iterable => b"Ljava/lang/Iterable;",
        Class::Collection => b"Ljava/util/Collection;",
        Class::List => b"Ljava/util/List;",
        Class::Set => b"Ljava/util/Set;",
        Class::Map => b"Ljava/util/Map;",
        Class::Unit => b"Lkotlin/Unit;",
        Class::Continuation => b"Lkotlin/coroutines/Continuation;",
    }
}

#[tactic(auto, unfolding(crate::specs::Erasure::print, characters::specs::Characters::utf8, characters::specs::Characters::utf8_of))]
fn text_of(part: Part) -> &'static [u8]
    ensures { result.now ≡ print_returned (fixed_told part) }
{
    match part {
        Part::Letter(primitive) => letter_of(primitive),
        Part::LetterArray(primitive) => array_of(primitive),
        Part::Boxed(primitive) => box_of(primitive),
        Part::Class(class) => class_of(class),
        Part::Unit => class_of(Class::Unit),
        Part::Continuation => class_of(Class::Continuation),
        Part::Void => b"V",
    }
}

// Writes a fixed part, and says how many bytes it takes.
pub fn put_part(area: &mut [u8], at: usize, part: Part) -> usize
    ensures { PutPart part at result area.old area.new }
{
    let text = text_of(part);
    sheet::put_all(area, at, text);
    text.len()
}

fn is_boxed(nullable: bool, position: Position) -> bool
    ensures { result ≡ boxed_at position nullable }
{
    nullable || position == Position::Element
}

// What is printed of a type at a position; nothing if it has no descriptor. `nullable` and `position` are no struct: descriptors' `Placement` is known
// before the type is read, and a type can be nullable by its own message too.
pub fn printed_as(meaning: Meaning, nullable: bool, position: Position) -> Option<Printed>
    ensures { PrintsAs meaning nullable position result }
{
    match meaning {
        Meaning::Primitive(primitive) => {
            if is_boxed(nullable, position) {
                return Some(Printed::Fixed(Part::Boxed(primitive)));
            }
            Some(Printed::Fixed(Part::Letter(primitive)))
        }
        Meaning::PrimitiveArray(primitive) => Some(Printed::Fixed(Part::LetterArray(primitive))),
        Meaning::Array => Some(Printed::ThroughArray),
        Meaning::Unit => match position {
            Position::Parameter => Some(Printed::Fixed(Part::Unit)),
            Position::Element => Some(Printed::Fixed(Part::Unit)),
            Position::Return => Some(Printed::Fixed(Part::Void)),
        },
        Meaning::Nothing => None,
        Meaning::Class(class) => Some(Printed::Fixed(Part::Class(class))),
        Meaning::Other => Some(Printed::ClassItself),
    }
}
