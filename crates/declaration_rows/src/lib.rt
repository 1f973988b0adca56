// Records written from values that are looked up, all kinds but that of a type (type_references). A count stands last in its record and is left
// out here: it is written once what it counts is (sheet's laws `row-counted`, `row_patch`). The cells: specs/told/Written.antt.
#![tactic(auto)]

ghost use Rattle.std.specs.Prelude.{◌≡◌, List, [], ◌∷◌, ℕ, ◌+◌, ◌^◌, ◌≤◌, length};
ghost use Rattle.std.proofs.Math.Option.{none, some};
ghost use Rattle.std.proofs.lemmas.List.Edits.{sets};
ghost use Rattle.foundation.specs.Digits.{little};
ghost use Rattle.foundation.specs.Texts.{ascii};
ghost use Rattle.names.specs.told.Name.{named_text, name_text};
ghost use Rattle.sheet.specs.Rows.{num, ref, bit, row, body_bytes};
ghost use Rattle.sheet.specs.told.Put.{PutRows, SameAreas, WroteCells, WroteHead, WroteRows};
ghost use Rattle.declaration_rows.specs.Rows.{name_cell, signature_cells};
ghost use Rattle.declaration_rows.specs.told.Written.{RecordRoom, role_number, record_number, signature_by, init_by, head_cells, head_counts, constructor_cells, function_cells, property_flags, property_signatures, property_cells, parameter_cells, alias_cells};

pub mod kinds; // kinds.rt: the kinds of records

use crate::kinds::RecordKind;
use foundation::{Context, put};
use names::name::Name;
use names::stream::put_name;
use sheet::{Output, put_absent, put_all, put_bit, put_number, put_ref};

// The role of a type: a return or property type, a receiver, a parameter, a vararg element, an argument, an alias's underlying and its expanded
// type. `Other` is a number that is none of these: it is written as it is.
#[derive(Clone, Copy)]
pub enum Role {
    Return,
    Receiver,
    Parameter,
    VarargElement,
    Argument,
    Underlying,
    Expanded,
    Other(u8),
}

// A role by its number on the sheet.
impl From<u8> for Role {
    ghost from_gives = { λ number role. role_number role ≡ number };

    fn from(number: u8) -> Role {
        match number {
            1 => Role::Return,
            2 => Role::Receiver,
            3 => Role::Parameter,
            4 => Role::VarargElement,
            5 => Role::Argument,
            6 => Role::Underlying,
            7 => Role::Expanded,
            _ => Role::Other(number),
        }
    }
}

impl Role {
    // Its number on the sheet.
    pub fn number(self) -> u8
        ensures { result ≡ role_number self }
    {
        match self {
            Role::Return => 1,
            Role::Receiver => 2,
            Role::Parameter => 3,
            Role::VarargElement => 4,
            Role::Argument => 5,
            Role::Underlying => 6,
            Role::Expanded => 7,
            Role::Other(number) => number,
        }
    }
}

// The two names of a signature. It is there if both are.
#[derive(Clone, Copy)]
pub struct SignatureNames {
    pub name: Option<Name>,
    pub descriptor: Option<Name>,
}

// A property's flags as a number, whether it has a receiver, and whether its getter and its setter are default.
#[derive(Clone, Copy)]
pub struct PropertyFlags {
    pub word: u64,
    pub receiver: bool,
    pub getter: bool,
    pub setter: bool,
}

// The cell of a name that is there, and its text.
// `RecordRoom`, here and below, is no invariant of `Context` and `Output`: it bounds both by a number of each call's own. So does
// `out.old.state.sheet ≤ 2 ^ 63` of what writes no text.
fn put_present(context: &Context<'_>, name: Name, out: &mut Output<'_>)
    requires { RecordRoom (2 ^ 63) context.now.payload.now context.now.d2.now out.old.state }
    ensures same_areas { SameAreas out.old out.new }
    ensures written { WroteCells (name_cell (some (named_text context.now.payload.now context.now.d2.now name)) ∷ []) out.old.state.types out.old out.new }
{
    let offset = out.state.text;
    out.state.text = put_name(context, Some(name), false, out.text, offset);
    let size = out.state.text - offset;
    // `as u64`, here and below: Rust has no `From<usize>` for `u64`.
    put_ref(out.sheet, out.state.sheet, offset as u64, size as u64);
    out.state.sheet += 4;
}

// A name's cell and its text; a ref to no text if it is absent.
// Callers show `RecordRoom`: the records below from their own, type_references from the `Ready` that it requires.
#[inline(always)]
pub fn put_named(context: &Context<'_>, name: Option<Name>, out: &mut Output<'_>)
    requires { RecordRoom (2 ^ 63) context.now.payload.now context.now.d2.now out.old.state }
    ensures same_areas { SameAreas out.old out.new }
    ensures written { WroteCells (name_cell (name_text context.now.payload.now context.now.d2.now name) ∷ []) out.old.state.types out.old out.new }
{
    let Some(name) = name else {
        put_absent(out.sheet, out.state.sheet);
        out.state.sheet += 4;
        return;
    };
    put_present(context, name, out);
}

// A record begins: its kind.
fn put_kind(kind: RecordKind, out: &mut Output<'_>)
    requires { out.old.state.sheet ≤ 2 ^ 63 }
    ensures same_areas { SameAreas out.old out.new }
    ensures written { WroteHead (record_number kind) [] out.old.state.types out.old out.new }
{
    put(out.sheet, out.state.sheet, kind.number());
    out.state.sheet += 1;
}

// A number in `width` bytes, 8 at most.
fn put_wide(width: usize, n: u64, out: &mut Output<'_>)
    requires { (width ≤ 8) × (out.old.state.sheet ≤ 2 ^ 63) }
    ensures same_areas { SameAreas out.old out.new }
    ensures written { WroteCells (num width n ∷ []) out.old.state.types out.old out.new }
{
    put_number(out.sheet, out.state.sheet, width, n);
    out.state.sheet += width;
}

// The cell of a flag: a byte, 0 or 1.
fn put_flag(on: bool, out: &mut Output<'_>)
    requires { out.old.state.sheet ≤ 2 ^ 63 }
    ensures same_areas { SameAreas out.old out.new }
    ensures written { WroteCells (bit on ∷ []) out.old.state.types out.old out.new }
{
    put_bit(out.sheet, out.state.sheet, on);
    out.state.sheet += 1;
}

// No signature: two refs to no text.
fn put_unsigned(out: &mut Output<'_>)
    requires { out.old.state.sheet ≤ 2 ^ 63 }
    ensures same_areas { SameAreas out.old out.new }
    ensures written { WroteCells (signature_cells none) out.old.state.types out.old out.new }
{
    put_absent(out.sheet, out.state.sheet);
    put_absent(out.sheet, out.state.sheet + 4);
    out.state.sheet += 8;
}

// A signature's two cells, absent together.
fn put_signature(context: &Context<'_>, signature: SignatureNames, out: &mut Output<'_>)
    requires { RecordRoom (2 ^ 62) context.now.payload.now context.now.d2.now out.old.state }
    ensures same_areas { SameAreas out.old out.new }
    ensures written { WroteCells (signature_cells (signature_by context.now.payload.now context.now.d2.now signature)) out.old.state.types out.old out.new }
{
    let (Some(name), Some(descriptor)) = (signature.name, signature.descriptor) else {
        put_unsigned(out);
        return;
    };
    put_present(context, name, out);
    put_present(context, descriptor, out);
}

// The name of a constructor whose signature has none.
fn put_init(out: &mut Output<'_>)
    requires { out.old.state.sheet + out.old.state.text ≤ 2 ^ 63 }
    ensures same_areas { SameAreas out.old out.new }
    ensures written { WroteCells (name_cell (some (ascii "<init>")) ∷ []) out.old.state.types out.old out.new }
{
    put_all(out.text, out.state.text, b"<init>");
    put_ref(out.sheet, out.state.sheet, out.state.text as u64, 6);
    out.state.sheet += 4;
    out.state.text += 6;
}

// A constructor's signature, absent without a descriptor.
fn put_init_signature(context: &Context<'_>, signature: SignatureNames, out: &mut Output<'_>)
    requires { RecordRoom (2 ^ 62) context.now.payload.now context.now.d2.now out.old.state }
    ensures same_areas { SameAreas out.old out.new }
    ensures written { WroteCells (signature_cells (init_by context.now.payload.now context.now.d2.now signature)) out.old.state.types out.old out.new }
{
    if signature.name.is_some() {
        put_signature(context, signature, out);
        return;
    }
    let Some(descriptor) = signature.descriptor else {
        put_unsigned(out);
        return;
    };
    put_init(out);
    put_present(context, descriptor, out);
}

// Kind 2, up to the parameter count.
// Callers show `RecordRoom`: members::callables from the `Affords` that it requires.
pub fn put_constructor(
    context: &Context<'_>,
    flags: u64,
    signature: SignatureNames,
    out: &mut Output<'_>,
)
    requires { RecordRoom (2 ^ 61) context.now.payload.now context.now.d2.now out.old.state }
    ensures same_areas { SameAreas out.old out.new }
    ensures written { WroteHead 2 (constructor_cells flags (init_by context.now.payload.now context.now.d2.now signature)) out.old.state.types out.old out.new }
{
    put_kind(RecordKind::Constructor, out);
    put_wide(8, flags, out);
    put_init_signature(context, signature, out);
}

// Kind 3, up to the parameter count.
// Callers show `RecordRoom`: members::callables from the `Affords` that it requires.
pub fn put_function(
    context: &Context<'_>,
    name: Option<Name>,
    flags: u64,
    signature: SignatureNames,
    receiver: bool,
    out: &mut Output<'_>,
)
    requires { RecordRoom (2 ^ 61) context.now.payload.now context.now.d2.now out.old.state }
    ensures same_areas { SameAreas out.old out.new }
    ensures written { WroteHead 3 (function_cells (name_text context.now.payload.now context.now.d2.now name) flags (signature_by context.now.payload.now context.now.d2.now signature) receiver) out.old.state.types out.old out.new }
{
    put_kind(RecordKind::Function, out);
    put_named(context, name, out);
    put_wide(8, flags, out);
    put_signature(context, signature, out);
    put_flag(receiver, out);
}

// The cells of a property's flags.
fn put_property_flags(flags: PropertyFlags, out: &mut Output<'_>)
    requires { out.old.state.sheet ≤ 2 ^ 62 }
    ensures same_areas { SameAreas out.old out.new }
    ensures written { WroteCells (property_flags flags.word flags.receiver flags.getter flags.setter) out.old.state.types out.old out.new }
{
    put_wide(8, flags.word, out);
    put_flag(flags.receiver, out);
    put_flag(flags.getter, out);
    put_flag(flags.setter, out);
}

// Field, getter and setter of a property. They are no struct: it would be made for `put_property` alone, which hands the three on.
fn put_property_signatures(
    context: &Context<'_>,
    field: SignatureNames,
    getter: SignatureNames,
    setter: SignatureNames,
    out: &mut Output<'_>,
)
    requires { RecordRoom (2 ^ 61 + 2 ^ 60) context.now.payload.now context.now.d2.now out.old.state }
    ensures same_areas { SameAreas out.old out.new }
    ensures written { WroteCells (property_signatures (signature_by context.now.payload.now context.now.d2.now field) (signature_by context.now.payload.now context.now.d2.now getter) (signature_by context.now.payload.now context.now.d2.now setter)) out.old.state.types out.old out.new }
{
    put_signature(context, field, out);
    put_signature(context, getter, out);
    put_signature(context, setter, out);
}

// Kind 4, whole.
// Callers show `RecordRoom`: members::properties from the `Affords` that it requires.
pub fn put_property(
    context: &Context<'_>,
    name: Option<Name>,
    flags: PropertyFlags,
    field: SignatureNames,
    getter: SignatureNames,
    setter: SignatureNames,
    out: &mut Output<'_>,
)
    requires { RecordRoom (2 ^ 61) context.now.payload.now context.now.d2.now out.old.state }
    ensures same_areas { SameAreas out.old out.new }
    ensures written { WroteRows (row 4 (property_cells (name_text context.now.payload.now context.now.d2.now name) flags.word flags.receiver flags.getter flags.setter (signature_by context.now.payload.now context.now.d2.now field) (signature_by context.now.payload.now context.now.d2.now getter) (signature_by context.now.payload.now context.now.d2.now setter)) ∷ []) out.old.state.types out.old out.new }
{
    put_kind(RecordKind::Property, out);
    put_named(context, name, out);
    put_property_flags(flags, out);
    put_property_signatures(context, field, getter, setter, out);
}

// Kind 5, whole.
// Callers show `RecordRoom`: members::parameters from the `Affords` that it requires.
pub fn put_parameter(context: &Context<'_>, name: Option<Name>, default: bool, out: &mut Output<'_>)
    requires { RecordRoom (2 ^ 61) context.now.payload.now context.now.d2.now out.old.state }
    ensures same_areas { SameAreas out.old out.new }
    ensures written { WroteRows (row 5 (parameter_cells (name_text context.now.payload.now context.now.d2.now name) default) ∷ []) out.old.state.types out.old out.new }
{
    put_kind(RecordKind::Parameter, out);
    put_named(context, name, out);
    put_flag(default, out);
}

// Kind 8, whole.
// Callers show `RecordRoom`: members::aliases from the `Affords` that it requires.
pub fn put_alias(context: &Context<'_>, name: Option<Name>, flags: u64, out: &mut Output<'_>)
    requires { RecordRoom (2 ^ 61) context.now.payload.now context.now.d2.now out.old.state }
    ensures same_areas { SameAreas out.old out.new }
    ensures written { WroteRows (row 8 (alias_cells (name_text context.now.payload.now context.now.d2.now name) flags) ∷ []) out.old.state.types out.old out.new }
{
    put_kind(RecordKind::Alias, out);
    put_named(context, name, out);
    put_wide(8, flags, out);
}

// Kind 9, up to the count of aliases.
// Callers show that the place after it can be counted: declarations::body from the `Affords` that it requires; metadata has written a head alone.
pub fn put_aliases(out: &mut Output<'_>)
    requires { out.old.state.sheet ≤ 2 ^ 61 }
    ensures same_areas { SameAreas out.old out.new }
    ensures written { WroteHead 9 [] out.old.state.types out.old out.new }
{
    put_kind(RecordKind::Aliases, out);
}

// Kind 7 for a constructor or function without a default descriptor.
// Callers show that the place after it can be counted: members::closed from the `Affords` that it requires.
pub fn put_default_absent(out: &mut Output<'_>)
    requires { out.old.state.sheet ≤ 2 ^ 61 }
    ensures same_areas { SameAreas out.old out.new }
    ensures written { WroteRows (row 7 (ref none ∷ []) ∷ []) out.old.state.types out.old out.new }
{
    put_kind(RecordKind::Default, out);
    put_absent(out.sheet, out.state.sheet);
    out.state.sheet += 4;
}

// Kind 7 around a descriptor of `size` bytes that is already written where the text ends.
// Callers show that both places after it can be counted: members::closed from the `Affords` that it requires.
pub fn put_default(size: usize, out: &mut Output<'_>)
    requires { out.old.state.sheet + out.old.state.text + size ≤ 2 ^ 61 }
    ensures same_areas { SameAreas out.old out.new }
    ensures written { (d T : List ℕ) → length d ≡ size → out.old.text.now ≡ sets T out.old.state.text d → PutRows (row 7 (ref (some d) ∷ []) ∷ []) out.old.state.types out.old.state out.new.state out.old.sheet.now out.new.sheet.now T out.new.text.now }
{
    put_kind(RecordKind::Default, out);
    let offset = out.state.text;
    put_ref(out.sheet, out.state.sheet, offset as u64, size as u64);
    out.state.sheet += 4;
    out.state.text += size;
}

// Kind 1, up to the counts of constructors, functions and properties. `kind` is the metadata kind's number, as it is written. The enum of kinds
// would be no plainer: it stands with what reads k, in inputs, and would have no reader here.
// Callers show `RecordRoom`: declarations::body from the `Affords` that it requires; metadata has an empty payload and begins at places 0.
pub fn put_head(
    context: &Context<'_>,
    kind: u8,
    name: Option<Name>,
    flags: u64,
    out: &mut Output<'_>,
)
    requires { RecordRoom (2 ^ 61) context.now.payload.now context.now.d2.now out.old.state }
    ensures same_areas { SameAreas out.old out.new }
    ensures written { WroteHead 1 (head_cells kind (name_text context.now.payload.now context.now.d2.now name) flags) out.old.state.types out.old out.new }
{
    put_kind(RecordKind::Head, out);
    put_wide(1, u64::from(kind), out);
    put_named(context, name, out);
    put_wide(8, flags, out);
}

// A count, once what it counts is written.
pub fn put_count(sheet: &mut [u8], at: usize, n: usize)
    ensures { sheet.new ≡ sets sheet.old at (little 2 n) }
{
    put_number(sheet, at, 2, n as u64);
}

// The three counts of kind 1.
// Callers show that the place after them can be counted: it follows the head, which declarations::body and metadata have written.
pub fn put_head_counts(
    sheet: &mut [u8],
    at: usize,
    constructors: usize,
    functions: usize,
    properties: usize,
)
    requires { at ≤ 2 ^ 63 }
    ensures { (o : ℕ) → sheet.new ≡ sets sheet.old at (body_bytes o (head_counts constructors functions properties)) }
{
    put_count(sheet, at, constructors);
    put_count(sheet, at + 2, functions);
    put_count(sheet, at + 4, properties);
}
