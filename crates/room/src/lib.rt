// The room that the sheet and text of a class take, without areas to write into: `room`, by the definition of the same name (specs/Room.antt).
#![tactic(auto)]

ghost use Rattle.std.specs.Prelude.{◌≡◌, ◌≤◌};
ghost use Rattle.inputs.specs.Inputs.{input};
ghost use Rattle.promises.specs.Promises.{longest_sheet};
ghost use Rattle.room.specs.Room as definition;
ghost use Rattle.room.specs.told.RoomTold.{others_bytes, parameters_left, TextsRise, texts_between, tells_room};

use inputs::outcome::{Refusal, Sizes};
use metadata::measure;
use passes::Reply;

// How many records of each kind, 1 to 9; `counts` are those of kind 9.
#[derive(Clone, Copy)]
pub struct Records {
    pub heads: usize,
    pub constructors: usize,
    pub functions: usize,
    pub properties: usize,
    pub parameters: usize,
    pub types: usize,
    pub defaults: usize,
    pub aliases: usize,
    pub counts: usize,
}

// The bytes of text of each list, of its records and of all they own; the head's last.
#[derive(Clone, Copy)]
pub struct ListTexts {
    pub properties: usize,
    pub functions: usize,
    pub constructors: usize,
    pub aliases: usize,
    pub head: usize,
}

// Both lengths and the types, the records, the text by lists.
#[derive(Clone, Copy)]
pub struct RoomAnswer {
    pub sizes: Sizes,
    pub records: Records,
    pub texts: ListTexts,
}

// The parameters' records. Every kind has a width of its own, so that they take what all the others leave of the sheet: 23 bytes are the head's and
// kind 9's, 24 a constructor's with its kind 7, 29 a function's with its, 40 a property's, 13 an alias's, 10 a type's, 6 a parameter's.
fn parameters_in(reply: Reply) -> usize
    requires { (others_bytes reply.sizes reply.sections ≤ reply.sizes.sheet) × (reply.sizes.sheet ≤ longest_sheet) }
    ensures { result ≡ parameters_left reply.sizes reply.sections }
{
    let Reply { sizes, sections } = reply;
    let closed = 24 * sections.constructors.count + 29 * sections.functions.count;
    let others = 23
        + closed
        + 40 * sections.properties.count
        + 13 * sections.aliases.count
        + 10 * sizes.types;
    (sizes.sheet - others) / 6
}

// The text of each list: what stands between where the text before it ends and where its own does. The aliases' ends where the whole text does.
fn texts_in(reply: Reply) -> ListTexts
    requires { TextsRise reply.sizes.text reply.sections }
    ensures { result ≡ texts_between reply.sizes.text reply.sections }
{
    let Reply { sizes, sections } = reply;
    let head = sections.head.text;
    let constructors = sections.constructors.state.text;
    let functions = sections.functions.state.text;
    let properties = sections.properties.state.text;
    ListTexts {
        properties: properties - functions,
        functions: functions - constructors,
        constructors: constructors - head,
        aliases: sizes.text - properties,
        head,
    }
}

// Tells of one class, from k, mv, d1's units, d2's units and where its strings end, what its reading takes; or the refusal that reading gives
// short of 11 and 12. The parameters are those of the C call, as those of metadata's `read`.
pub fn room(
    k: i32,
    version: [i32; 3],
    d1: &[u16],
    d2: &[u16],
    ends: &[u32],
) -> Result<RoomAnswer, Refusal>
    ensures { definition.room (input k version d1.now d2.now ends.now) ≡ tells_room result }
{
    let reply = measure(k, version, d1, d2, ends)?;
    let parameters = parameters_in(reply);
    let texts = texts_in(reply);
    let Reply { sizes, sections } = reply;
    let constructors = sections.constructors.count;
    let functions = sections.functions.count;
    Ok(RoomAnswer {
        sizes,
        records: Records {
            heads: 1,
            constructors,
            functions,
            properties: sections.properties.count,
            parameters,
            types: sizes.types,
            defaults: constructors + functions,
            aliases: sections.aliases.count,
            counts: 1,
        },
        texts,
    })
}
