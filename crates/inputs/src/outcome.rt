// What comes of an input, without the version: its sizes, or why it is refused. The refusals' numbers: specs/Refusals.antt.
ghost use Rattle.std.specs.Prelude.{◌≡◌};
ghost use Rattle.inputs.specs.Refusals.{number_of, detail_of};
ghost use Rattle.inputs.specs.declared.outcome.Refusal.TheVariants as refusal;
ghost use Rattle.inputs.specs.told.OutcomesTold.{refusal_cause, refusal_place};

use crate::Fault;
use schema::Stop;
use wire::WireError;

// The lengths of the sheet and of the text, and how many types are entered.
#[derive(Clone, Copy)]
pub struct Sizes {
    pub sheet: usize,
    pub text: usize,
    pub types: usize,
}

// Why an input is refused.
#[derive(Clone, Copy, Debug, PartialEq, Eq)]
pub enum Refusal {
    // 1 to 4.
    Fault(Fault),
    // 5: d1 has no unit.
    EmptyPayload,
    // 6.
    NotAByte { unit: u16 },
    // 7 to 10, 13, 14 and 17.
    Stop(Stop),
    // 11: for its area, or for any.
    TextTooLong,
    // 12.
    SheetTooLong,
}

impl Refusal {
    // The refusal's number, and its detail: the unit of 6; of 7, 8, 9, 13, 14 and 17 the place, an offset among the decoded bytes.
    // A place is made 64 bits wide by `as`: Rust has no `From<usize>` for `u64`.
    #[tactic(auto, unfolding(crate::specs::Refusals::number_of, crate::specs::Refusals::detail_of))]
    pub fn numbered(self) -> (u64, u64)
        ensures { result ≡ (number_of (refusal_cause self), detail_of (refusal_cause self) (refusal_place self)) }
    {
        match self {
            Refusal::Fault(Fault::D1TooLong) => (1, 0),
            Refusal::Fault(Fault::D2TooLong) => (2, 0),
            Refusal::Fault(Fault::StringEnds) => (3, 0),
            Refusal::Fault(Fault::NewerVersion) => (4, 0),
            Refusal::EmptyPayload => (5, 0),
            Refusal::NotAByte { unit } => (6, u64::from(unit)),
            Refusal::Stop(Stop::TooManyTypes) => (10, 0),
            Refusal::Stop(Stop::Wire(error)) => match error {
                WireError::VarintCutShort { place } => (7, place as u64),
                WireError::WireType { kind: _, place } => (8, place as u64),
                WireError::OversizedVarint { place } => (9, place as u64),
                WireError::PastItsMessage { place } => (13, place as u64),
                WireError::FieldTooLarge { place } => (14, place as u64),
                WireError::ForbiddenField { place } => (17, place as u64),
            },
            Refusal::TextTooLong => (11, 0),
            Refusal::SheetTooLong => (12, 0),
        }
    }
}

impl From<Fault> for Refusal {
    ghost from_gives = { λ fault r. r ≡ refusal.Fault fault };

    fn from(fault: Fault) -> Refusal {
        Refusal::Fault(fault)
    }
}

impl From<Stop> for Refusal {
    ghost from_gives = { λ stop r. r ≡ refusal.Stop stop };

    fn from(stop: Stop) -> Refusal {
        Refusal::Stop(stop)
    }
}
