// A reader over a payload: the lent bytes and the offset of the next one. How its answers tell the definitions: specs/told/Reader.antt.
ghost use Rattle.std.specs.Prelude.{◌≡◌, drop};
ghost use Rattle.foundation.specs.Results.{◌from◌};
ghost use Rattle.wire.specs.Wire.{read_delimited};
ghost use Rattle.messages.specs.told.Reader.{DelimitedRead, SplitTold};

use foundation::{Located, Span};
use wire::{WireError, delimited_at};

// The specification names this reader, its two fields and `remainder`: docs/DECISIONS.md keeps the form, although one function would do.
#[derive(Clone, Copy)]
struct WireReader<'a> {
    data: &'a [u8],
    offset: usize,
}

// The bytes from a place on, none past the end.
fn rest_at(s: &[u8], at: usize) -> &[u8]
    ensures { result.now ≡ drop at s.now }
{
    s.get(at..).unwrap_or(&[])
}

impl<'a> WireReader<'a> {
    fn new(data: &'a [u8]) -> WireReader<'a>
        ensures { (result.«data» ≡ «data».entry) × (result.offset ≡ 0) }
    {
        WireReader { data, offset: 0 }
    }

    // What is not read yet.
    fn remainder(&self) -> &'a [u8]
        ensures { result.now ≡ drop self.now.offset self.now.«data».now }
    {
        rest_at(self.data, self.offset)
    }

    // The next length-delimited message, by its places. After a refused one the reader still stands before it.
    fn delimited(&mut self) -> Result<Span, WireError>
        ensures { (self.new.«data» ≡ self.old.«data») × DelimitedRead self.old.«data».now self.old.offset result self.new.offset }
    {
        let body = delimited_at(Located::whole(self.data), self.offset)?;
        self.offset = body.end;
        Ok(body)
    }
}

// A payload's two parts, by their places: the name table, and the declarations from `rest` on.
#[derive(Clone, Copy)]
pub struct Parts {
    pub table: Span,
    pub rest: usize,
}

// Opens a payload: a length-delimited name table, then the declarations.
pub fn split_payload(bytes: &[u8]) -> Result<Parts, WireError>
    ensures { SplitTold bytes.now (read_delimited (◌from◌ 0 bytes.now)) result }
{
    let mut reader = WireReader::new(bytes);
    let table = reader.delimited()?;
    let rest = reader.remainder();
    Ok(Parts {
        table,
        rest: bytes.len() - rest.len(),
    })
}
