// Constructors and functions, each closed by the record of its default descriptor. The definitions: descriptors' specs/Defaults.antt; what
// the writers tell: specs/told/ClosedTold.antt and schema's specs/told/MembersTold.antt.
ghost use Rattle.std.specs.Prelude.{[], ◌∷◌, ◌+◌, ◌-◌, ◌*◌, ◌^◌, ◌≤◌, length, drop};
ghost use Rattle.std.proofs.Math.Option.{some};
ghost use Rattle.sheet.specs.Rows.{ref, row};
ghost use Rattle.sheet.specs.told.Put.{SameAreas, WroteRows};
ghost use Rattle.schema.specs.told.SchemaTold.{lent, Stands};
ghost use Rattle.schema.specs.told.MembersTold.{Affords, closed_cost, member_cost, MemberTold};
ghost use Rattle.schema.specs.told.WroteTold.{picked, Stays, Writes};
ghost use Rattle.descriptors.specs.told.DefaultsTold.{part_cost};
ghost use Rattle.descriptors.specs.told.PartsTold.{PartRoom};
ghost use Rattle.members.specs.told.ClosedTold.{callable_in, callable_rows, callable_parts, callable_closed, close_cost, DefaultOf, CloseTold};

use crate::callables::{constructor_in, function_in};
use declaration_rows::{put_default, put_default_absent};
use descriptors::defaults::{constructor_default, function_default};
use foundation::{Context, Located};
use schema::Stop;
use sheet::{Output, put_all};

// Kind 7 around a descriptor that was written aside.
fn put_aside(aside: &[u8], out: &mut Output<'_>)
    requires { out.old.state.sheet + out.old.state.text + length aside.now ≤ 2 ^ 61 }
    ensures same_areas { SameAreas out.old out.new }
    ensures written { WroteRows (row 7 (ref (some aside.now) ∷ []) ∷ []) out.old.state.types out.old out.new }
{
    put_all(out.text, out.state.text, aside);
    put_default(aside.len(), out);
}

// What a default descriptor is of.
// An enum by value: a closure or a trait would say the contracts of its readers and of its writers once more as its own.
#[derive(Clone, Copy)]
pub(crate) enum Callable {
    Constructor,
    Function,
}

// The rows of a constructor or function, without the record that closes it.
fn callable_in(
    callable: Callable,
    msg: Located<'_>,
    context: &Context<'_>,
    out: &mut Output<'_>,
) -> Result<bool, Stop>
    requires { Affords (lent context.now) (member_cost (length msg.bytes.now)) out.old.state × (msg.base + length msg.bytes.now ≤ length context.now.payload.now) }
    ensures same_areas { SameAreas out.old out.new }
    ensures stays { Stays result out.old out.new }
    ensures written { Writes (MemberTold (callable_in callable) (callable_rows callable) (member_cost (length msg.entry.bytes.now)) (lent context.now) msg.entry.bytes.now msg.entry.base) out.old (picked result out.new) out.new }
{
    match callable {
        Callable::Constructor => constructor_in(msg, context, out),
        Callable::Function => function_in(msg, context, out),
    }
}

// The default descriptor of a constructor or function.
fn default_of(
    callable: Callable,
    msg: Located<'_>,
    context: &Context<'_>,
    area: &mut [u8],
    at: usize,
) -> Option<usize>
    requires { PartRoom (lent context.now) msg.bytes.now msg.base (part_cost * (4 + length msg.bytes.now)) at }
    ensures { DefaultOf (callable_in callable) (callable_parts callable) (lent context.now) msg.entry.base (msg.entry.base + length msg.entry.bytes.now) at result area.old area.new }
{
    match callable {
        Callable::Constructor => constructor_default(msg, context, area, at),
        Callable::Function => function_default(msg, context, area, at),
    }
}

// Kind 7 of a constructor or function. A descriptor is written aside first: if there is none, nothing may be written to the text.
fn close(callable: Callable, msg: Located<'_>, context: &Context<'_>, out: &mut Output<'_>)
    requires { Affords (lent context.now) (close_cost (length msg.bytes.now)) out.old.state × Stands context.now.payload.now msg.bytes.now msg.base }
    ensures same_areas { SameAreas out.old out.new }
    ensures written { Writes (CloseTold (callable_in callable) (callable_parts callable) (lent context.now) msg.entry.base (msg.entry.base + length msg.entry.bytes.now)) out.old out.new.state out.new }
{
    let mut aside = [0u8; 256];
    let written = default_of(callable, msg, context, &mut aside, 0);
    let Some(size) = written else {
        put_default_absent(out);
        return;
    };
    if size <= 256 {
        put_aside(&aside[..size], out);
        return;
    }
    let offset = out.state.text;
    default_of(callable, msg, context, out.text, offset);
    put_default(size, out);
}

// A constructor or function, with the record that closes it.
pub(crate) fn closed(
    callable: Callable,
    msg: Located<'_>,
    context: &Context<'_>,
    out: &mut Output<'_>,
) -> Result<bool, Stop>
    requires { Affords (lent context.now) (closed_cost (length msg.bytes.now)) out.old.state × Stands context.now.payload.now msg.bytes.now msg.base }
    ensures same_areas { SameAreas out.old out.new }
    ensures stays { Stays result out.old out.new }
    ensures written { Writes (MemberTold (callable_in callable) (callable_closed callable) (closed_cost (length msg.entry.bytes.now)) (lent context.now) msg.entry.bytes.now msg.entry.base) out.old (picked result out.new) out.new }
{
    let kept = callable_in(callable, msg, context, out)?;
    if !kept {
        return Ok(false);
    }
    close(callable, msg, context, out);
    Ok(true)
}
