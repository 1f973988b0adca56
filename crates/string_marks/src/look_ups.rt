// One look-up: the string of d2 at an index that no record decides. The same string is looked up for a name and for a class name. What is told:
// specs/told/MarksTold.antt.
ghost use Rattle.schema.specs.told.SchemaTold.{lent};
ghost use Rattle.string_marks.specs.told.MarksTold.{StringMarked, NameMarked};

use foundation::{Context, Located, put, wide};
use lookup::is_decided;
use messages::index;

// The string at an index, if it is there and no record decides the index.
fn mark_string(index: u32, context: &Context<'_>, used: &mut [u8])
    ensures { StringMarked (lent context.now) index used.old used.new }
{
    if wide(index) < context.ends.len() && !is_decided(context, index) {
        put(used, wide(index), 1);
    }
}

// The name at the index in a field. It is never made a part of `mark_type` (types.rt), whose frame stands once for each level of types.
#[inline(never)]
pub(crate) fn mark_name(msg: Located<'_>, number: u32, context: &Context<'_>, used: &mut [u8])
    ensures { NameMarked (lent context.now) msg.entry.base msg.entry.bytes.now number used.old used.new }
{
    if let Some(i) = index(msg, number) {
        mark_string(i, context, used);
    }
}
