//! The picture of a plan.

ghost use Rattle.std.specs.Prelude.{◌≡◌, IfErr, IfOk};
ghost use Rattle.nor_job.specs.declared.fault.BuildFault.TheVariants.{Memory};
ghost use Rattle.nor_map.specs.Totals.{Prints, totals_text};
ghost use Rattle.norprog_plan.specs.Outline.{IsDrawn};

use nor_job::{BuildFault, Inputs};
use nor_map::{PlanMarks, Title, draw_map};
use std::alloc::Global;

/// The picture of the plan of the inputs that has these marks, with the text behind the lines;
/// empty where there are no marks. `Memory` where a growth is refused.
pub(crate) fn draw_where_asked(
    alloc: Global,
    inputs: &Inputs<'_>,
    marks: &Option<PlanMarks<'_>>,
    title: &Title<'_>,
    rest: &[u8],
) -> Result<Vec<u8>, BuildFault>
    ensures drawn { IfOk result (λ picture. IsDrawn marks.now picture.items) }
    ensures refused { IfErr result (λ why. why ≡ Memory) }
{
    match marks {
        Some(marks) => draw(alloc, inputs, marks, title, rest),
        None => Ok(Vec::new(alloc)),
    }
}

/// Draws the plan of the inputs, with the regions of their layout. `Memory` where a growth is
/// refused.
fn draw(
    alloc: Global,
    inputs: &Inputs<'_>,
    marks: &PlanMarks<'_>,
    title: &Title<'_>,
    rest: &[u8],
) -> Result<Vec<u8>, BuildFault>
    ensures drawn { IfOk result (λ picture. Prints picture.items (totals_text marks.now)) }
    ensures refused { IfErr result (λ why. why ≡ Memory) }
{
    let Some(text) = inputs.layout else {
        return Ok(draw_map(alloc, marks, title, &[], rest)?);
    };
    // the plan was made with this layout, so no cause is left
    let Ok(layout) = nor_layout::read(alloc, text) else {
        return Err(BuildFault::Memory);
    };
    Ok(draw_map(alloc, marks, title, layout.regions(), rest)?)
}
