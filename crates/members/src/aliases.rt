// Type aliases: a name, flags, the underlying and the expanded type. The definition: schema's specs/Members.antt, `alias_in`; what the reader
// tells: schema's specs/told/MembersTold.antt.
ghost use Rattle.std.specs.Prelude.{◌+◌, ◌≤◌, length};
ghost use Rattle.sheet.specs.told.Put.{SameAreas};
ghost use Rattle.schema.specs.Members.{alias_in};
ghost use Rattle.declaration_rows.specs.Rows.{alias_rows};
ghost use Rattle.schema.specs.told.SchemaTold.{lent};
ghost use Rattle.schema.specs.told.MembersTold.{Affords, member_cost, MemberTold};
ghost use Rattle.schema.specs.told.WroteTold.{picked, Stays, Writes};

use crate::pairs::{TypePair, type_pair};
use declaration_rows::{Role, put_alias};
use fields::{
    OMITTED_FLAGS, TYPE_ALIAS_EXPANDED_TYPE, TYPE_ALIAS_EXPANDED_TYPE_ID, TYPE_ALIAS_FLAGS,
    TYPE_ALIAS_NAME, TYPE_ALIAS_UNDERLYING_TYPE, TYPE_ALIAS_UNDERLYING_TYPE_ID,
};
use foundation::{Context, Located};
use schema::flags::flags_in;
use schema::name::name_in;
use schema::{Stop, TypeSlot};
use sheet::Output;

// An alias. One without a name is skipped before anything inside it is read.
pub(crate) fn alias_in(
    msg: Located<'_>,
    context: &Context<'_>,
    out: &mut Output<'_>,
) -> Result<bool, Stop>
    requires { Affords (lent context.now) (member_cost (length msg.bytes.now)) out.old.state × (msg.base + length msg.bytes.now ≤ length context.now.payload.now) }
    ensures same_areas { SameAreas out.old out.new }
    ensures stays { Stays result out.old out.new }
    ensures written { Writes (MemberTold alias_in alias_rows (member_cost (length msg.entry.bytes.now)) (lent context.now) msg.entry.bytes.now msg.entry.base) out.old (picked result out.new) out.new }
{
    let Some(name) = name_in(msg, TYPE_ALIAS_NAME, context) else {
        return Ok(false);
    };
    let flags = flags_in(msg, TYPE_ALIAS_FLAGS, OMITTED_FLAGS);
    put_alias(context, Some(name), flags, out);
    let pair = TypePair {
        first: TypeSlot {
            inline: TYPE_ALIAS_UNDERLYING_TYPE,
            indexed: TYPE_ALIAS_UNDERLYING_TYPE_ID,
            role: Role::Underlying,
        },
        second: TypeSlot {
            inline: TYPE_ALIAS_EXPANDED_TYPE,
            indexed: TYPE_ALIAS_EXPANDED_TYPE_ID,
            role: Role::Expanded,
        },
    };
    type_pair(msg, pair, context, out)?;
    Ok(true)
}
