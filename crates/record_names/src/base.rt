// What the text of a record is made of: a part of the payload or of the predefined list, and its bytes.
ghost use Rattle.std.specs.Prelude.{◌≡◌};
ghost use Rattle.characters.specs.told.Places.{part_from};
ghost use Rattle.names.specs.told.Name.{predefined_list};
ghost use Rattle.names.specs.told.Stream.{base_of};
ghost use Rattle.names.specs.declared.name.Source.TheVariants.{D2};

use foundation::Span;
use names::name::{PREDEFINED, Source, base_text};

// A part of the payload or of the predefined list, and never of d2: so its text is made of bytes.
#[derive(Clone, Copy)]
pub(crate) struct Base {
    pub(crate) source: Source,
    pub(crate) part: Span,
    pub(crate) ghost no_units: { source ≡ D2 → ⊥ },
}

// The bytes of a part.
#[tactic(auto, unfolding(names::specs::told::Name::predefined_list))]
pub(crate) fn bytes_of(payload: &[u8], base: Base) -> &[u8]
    ensures { result.now ≡ part_from base.part.start base.part.end (base_of base.source payload.now predefined_list) }
{
    base_text(payload, &PREDEFINED, base.source, base.part)
}
