// The lists of a body: one loop for all kinds of members. What is read of each and its rows: specs/Lists.antt; what the functions tell:
// schema's specs/told/MembersTold.antt.
ghost use Rattle.std.specs.Prelude.{◌*◌, ◌^◌, length};
ghost use Rattle.sheet.specs.told.Put.{SameAreas};
ghost use Rattle.schema.specs.told.SchemaTold.{lent, Stands};
ghost use Rattle.schema.specs.told.MembersTold.{Affords, closed_cost, MemberTold, ListTold};
ghost use Rattle.schema.specs.told.WroteTold.{picked, Stays, Writes};
ghost use Rattle.schema.specs.told.ListsTold.{ListAtTold};
ghost use Rattle.members.specs.Lists.{member_in, member_rows};
ghost use Rattle.members.specs.told.EndsTold.{EndsAt};

use crate::aliases::alias_in;
use crate::closed::{Callable, closed};
use crate::properties::property_in;
use foundation::{Context, Located};
use messages::{bodies_from, check_messages};
use schema::{Section, Stop};
use sheet::Output;

// A kind of member that a body has a list of.
// An enum by value: a closure or a trait would say the contract of the readers once more as its own.
#[derive(Clone, Copy)]
pub enum Member {
    Constructor,
    Function,
    Property,
    Alias,
}

// A list of a body: what its members are, and the field that they stand in.
#[derive(Clone, Copy)]
pub struct MemberList {
    pub member: Member,
    pub number: u32,
}

// One member.
fn member_in(
    member: Member,
    msg: Located<'_>,
    context: &Context<'_>,
    out: &mut Output<'_>,
) -> Result<bool, Stop>
    requires { Affords (lent context.now) (closed_cost (length msg.bytes.now)) out.old.state × Stands context.now.payload.now msg.bytes.now msg.base }
    ensures same_areas { SameAreas out.old out.new }
    ensures stays { Stays result out.old out.new }
    ensures written { Writes (MemberTold (member_in member) (member_rows member) (closed_cost (length msg.entry.bytes.now)) (lent context.now) msg.entry.bytes.now msg.entry.base) out.old (picked result out.new) out.new }
{
    match member {
        Member::Constructor => closed(Callable::Constructor, msg, context, out),
        Member::Function => closed(Callable::Function, msg, context, out),
        Member::Property => property_in(msg, context, out),
        Member::Alias => alias_in(msg, context, out),
    }
}

// The members of a list, one after the other. All of them are cut.
fn members_at(
    list: MemberList,
    msg: Located<'_>,
    context: &Context<'_>,
    out: &mut Output<'_>,
) -> Result<Section, Stop>
    requires { Affords (lent context.now) (2 ^ 25 * length msg.bytes.now) out.old.state × Stands context.now.payload.now msg.bytes.now msg.base }
    ensures same_areas { SameAreas out.old out.new }
    ensures ends { EndsAt result out.new.state }
    ensures written { Writes (ListAtTold (member_in list.member) (member_rows list.member) (2 ^ 25 * length msg.entry.bytes.now) (lent context.now) msg.entry.bytes.now msg.entry.base list.number) out.old result out.new }
{
    // No `enumerate`: only those that are kept are counted.
    let mut count: usize = 0;
    for body in bodies_from(msg, list.number, 0) {
        let kept = member_in(list.member, msg.part(body), context, out)?;
        if kept {
            count += 1;
        }
    }
    Ok(Section {
        state: out.state,
        count,
    })
}

// A list, all of it cut before the first member is read.
// Callers show `Affords` and `Stands`: declarations::body from its own, which leave room for each list.
pub fn members_in(
    list: MemberList,
    msg: Located<'_>,
    context: &Context<'_>,
    out: &mut Output<'_>,
) -> Result<Section, Stop>
    requires { Affords (lent context.now) (2 ^ 25 * length msg.bytes.now) out.old.state × Stands context.now.payload.now msg.bytes.now msg.base }
    ensures same_areas { SameAreas out.old out.new }
    ensures ends { EndsAt result out.new.state }
    ensures written { Writes (ListTold (member_in list.member) (member_rows list.member) (2 ^ 25 * length msg.entry.bytes.now) (lent context.now) msg.entry.bytes.now msg.entry.base list.number) out.old result out.new }
{
    check_messages(msg, list.number)?;
    members_at(list, msg, context, out)
}
