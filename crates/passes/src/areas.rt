// What was measured, written into both areas: refusals 11 and 12 first; only then are the areas touched, copied from the scratch areas
// if these hold the whole, else walked again. What the functions tell: specs/told/AreaTold.antt.
ghost use Rattle.std.specs.Prelude.{◌≡◌, ◌≤◌, length};
ghost use Rattle.inputs.specs.told.OutcomesTold.{told};
ghost use Rattle.inputs.specs.told.KindTold.{kind_number};
ghost use Rattle.schema.specs.told.SchemaTold.{lent};
ghost use Rattle.passes.specs.Answered.{answered};
ghost use Rattle.passes.specs.told.AreaTold.{Limited, lent_reading, last_of, MeasuredAt, WrittenOut, AreasKept, OnAreas};

use crate::{AreaPair, Measured, sizes_at, walk};
use foundation::Context;
use inputs::Kind;
use inputs::outcome::{Refusal, Sizes};
use sheet::put_all;

// No present ref is FFFFFFFF hex.
const TEXT_LIMIT: usize = 65534;

// What was measured fits both areas: copied from the scratch areas if these hold the whole, else walked again.
fn write_out(kind: Kind, measured: Measured<'_>, context: &Context<'_>, areas: &mut AreaPair<'_>)
    requires { Limited (lent context.now) × ((last_of measured.sections).sheet ≤ length areas.old.sheet.now) × ((last_of measured.sections).text ≤ length areas.old.text.now) × MeasuredAt (kind_number kind) (lent context.now) measured.at measured.sections measured.sheet.now measured.text.now }
    ensures areas_kept { AreasKept areas.old areas.new }
    ensures written { OnAreas (WrittenOut (kind_number kind) (lent_reading (kind_number kind) (lent context.now))) areas.old areas.new }
{
    let end = measured.sections.aliases.state;
    let size = end.sheet;
    let length = end.text;
    if size <= measured.sheet.len() && length <= measured.text.len() {
        put_all(areas.sheet, 0, &measured.sheet[..size]);
        put_all(areas.text, 0, &measured.text[..length]);
        return;
    }
    let _ = walk(kind, measured.at, context, areas);
}

// 11, 12, or both areas written.
pub(crate) fn write_in(
    kind: Kind,
    measured: Measured<'_>,
    context: &Context<'_>,
    areas: &mut AreaPair<'_>,
) -> Result<Sizes, Refusal>
    requires { Limited (lent context.now) × MeasuredAt (kind_number kind) (lent context.now) measured.at measured.sections measured.sheet.now measured.text.now }
    ensures areas_kept { AreasKept areas.old areas.new }
    ensures written { answered areas.old.sheet.now areas.old.text.now (kind_number kind) (lent_reading (kind_number kind) (lent context.now)) ≡ told result areas.new.sheet.now areas.new.text.now }
{
    let end = measured.sections.aliases.state;
    let size = end.sheet;
    let length = end.text;
    if TEXT_LIMIT < length || areas.text.len() < length {
        return Err(Refusal::TextTooLong);
    }
    if areas.sheet.len() < size {
        return Err(Refusal::SheetTooLong);
    }
    write_out(kind, measured, context, areas);
    Ok(sizes_at(end))
}
