// What is refused of every kind before the payload is looked at, and the metadata kind. The definitions: specs/Inputs.antt; how the answers
// tell them: specs/told/OutcomesTold.antt.
#![tactic(auto)]

ghost use Rattle.std.specs.Prelude.{◌≡◌, eqb, ℤ};
ghost use Rattle.names.specs.Names.{ends_fit};
ghost use Rattle.inputs.specs.Inputs.{kind_of, carries_declarations, fault_of, input};
ghost use Rattle.inputs.specs.told.KindTold.{kind_number};
ghost use Rattle.inputs.specs.told.OutcomesTold.{fault_told};

use encoding::UNIT_LIMIT;
use foundation::wide;

pub mod outcome; // outcome.rt: numbers and details of refusals

const STRING_LIMIT: usize = 4096;

const SUPPORTED_MAJOR: i32 = 2;

// What an annotation carries beside k and mv: d1 and d2 in units, and where d2's strings end.
// The limits are no invariant of it: `fault_of` is asked of any input, and tells whether it keeps to them.
#[derive(Clone, Copy)]
pub struct Units<'a> {
    pub d1: &'a [u16],
    pub d2: &'a [u16],
    pub ends: &'a [u32],
}

// Refusals 1 to 4.
#[derive(Clone, Copy, Debug, PartialEq, Eq)]
pub enum Fault {
    D1TooLong,
    D2TooLong,
    StringEnds,
    NewerVersion,
}

// A metadata kind. `Other` is a number that is none of the five: it is written as it is, and its body is read as a package's.
#[derive(Clone, Copy, Debug, PartialEq, Eq)]
pub enum Kind {
    Class,
    FileFacade,
    SyntheticClass,
    MultiFileClassFacade,
    MultiFileClassPart,
    Other(u8),
}

// A kind by its number on a sheet. `kind_of` reads an annotation's k, where another number counts as a class.
impl From<u8> for Kind {
    ghost from_gives = { λ number kind. kind_number kind ≡ number };

    fn from(number: u8) -> Kind {
        match number {
            1 => Kind::Class,
            2 => Kind::FileFacade,
            3 => Kind::SyntheticClass,
            4 => Kind::MultiFileClassFacade,
            5 => Kind::MultiFileClassPart,
            _ => Kind::Other(number),
        }
    }
}

impl Kind {
    // Its number, as a sheet has it.
    pub fn number(self) -> u8
        ensures { result ≡ kind_number self }
    {
        match self {
            Kind::Class => 1,
            Kind::FileFacade => 2,
            Kind::SyntheticClass => 3,
            Kind::MultiFileClassFacade => 4,
            Kind::MultiFileClassPart => 5,
            Kind::Other(number) => number,
        }
    }

    // By its number, here and below: `Other(1)` is a class too.
    pub fn is_class(self) -> bool
        ensures { result ≡ eqb (kind_number self) 1 }
    {
        self.number() == 1
    }

    pub fn carries_declarations(self) -> bool
        ensures { result ≡ carries_declarations (kind_number self) }
    {
        matches!(self.number(), 1 | 2 | 5)
    }
}

// The metadata kind by its number; another k counts as a class. No `From`: such a k isn't that kind, it only counts as one.
pub fn kind_of(k: i32) -> Kind
    ensures { kind_number result ≡ kind_of k }
{
    match k {
        2 => Kind::FileFacade,
        3 => Kind::SyntheticClass,
        4 => Kind::MultiFileClassFacade,
        5 => Kind::MultiFileClassPart,
        _ => Kind::Class,
    }
}

// Ends that don't fall and whose last (0 if there are none) is the unit count. `is_sorted` and `last` were tried: 512 ends take 330 ns by them, and
// 100 ns by this loop, which has no way out, so that the machine tests several at once.
fn ends_fit(ends: &[u32], count: usize) -> bool
    ensures { ends_fit 0 ends.now count ≡ result }
{
    let mut at: u32 = 0;
    let mut falls = false;
    for end in ends {
        if *end < at {
            falls = true;
        }
        at = *end;
    }
    !falls && wide(at) == count
}

// The first of refusals 1 to 4 that is due, if one is.
pub fn fault_of(units: &Units<'_>, version: [i32; 3]) -> Result<(), Fault>
    ensures { (k : ℤ) → fault_of (input k version units.now.d1.now units.now.d2.now units.now.ends.now) ≡ fault_told result }
{
    if UNIT_LIMIT < units.d1.len() {
        return Err(Fault::D1TooLong);
    }
    if UNIT_LIMIT < units.d2.len() || STRING_LIMIT < units.ends.len() {
        return Err(Fault::D2TooLong);
    }
    if !ends_fit(units.ends, units.d2.len()) {
        return Err(Fault::StringEnds);
    }
    // compared as signed: a negative major is read
    if SUPPORTED_MAJOR < version[0] {
        return Err(Fault::NewerVersion);
    }
    Ok(())
}
