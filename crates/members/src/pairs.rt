// Two types of one declaration, one after the other. What is told of them: specs/told/PairsTold.antt.
ghost use Rattle.std.specs.Prelude.{◌+◌, ◌≤◌, length};
ghost use Rattle.sheet.specs.told.Put.{SameAreas};
ghost use Rattle.schema.specs.told.SchemaTold.{lent, Ready};
ghost use Rattle.schema.specs.told.WroteTold.{walked, Writes};
ghost use Rattle.members.specs.told.PairsTold.{PairTold};

use foundation::{Context, Located};
use schema::{Stop, TypeSlot};
use sheet::Output;
use type_references::declared_type;

// Where the two types stand in a message, and their roles.
#[derive(Clone, Copy)]
pub(crate) struct TypePair {
    pub first: TypeSlot,
    pub second: TypeSlot,
}

// Both types, each if it is there.
pub(crate) fn type_pair(
    msg: Located<'_>,
    pair: TypePair,
    context: &Context<'_>,
    out: &mut Output<'_>,
) -> Result<(), Stop>
    requires { Ready (lent context.now) out.old.state × (msg.base + length msg.bytes.now ≤ length context.now.payload.now) }
    ensures same_areas { SameAreas out.old out.new }
    ensures written { Writes (PairTold pair (lent context.now) msg.entry.bytes.now msg.entry.base) out.old (walked result out.new) out.new }
{
    declared_type(msg, pair.first, context, out)?;
    declared_type(msg, pair.second, context, out)
}
