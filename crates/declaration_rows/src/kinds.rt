// The kinds of records, by their numbers on the sheet. The numbers: specs/told/Written.antt, `record_number`.
ghost use Rattle.std.specs.Prelude.{◌≡◌};
ghost use Rattle.declaration_rows.specs.told.Written.{record_number};

// A record of a type is written in type_references, the others here.
#[derive(Clone, Copy)]
pub enum RecordKind {
    Head = 1,
    Constructor = 2,
    Function = 3,
    Property = 4,
    Parameter = 5,
    Type = 6,
    Default = 7,
    Alias = 8,
    Aliases = 9,
}

impl RecordKind {
    // Its number on the sheet.
    pub fn number(self) -> u8
        ensures { result ≡ record_number self }
    {
        self as u8
    }
}
