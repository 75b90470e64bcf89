//! What a device's work says of its chip.

ghost use Rattle.nor_flasher.specs.Laws.{Closes, Breaks, Rests, PlannedIsDoable};
ghost use Rattle.nor_flasher.specs.Laws.{RefusedForLength};
ghost use Rattle.nor_flasher.specs.Within.{PlannedForAll};

use nor_laws::{effects, spelling};
use nor_loop::{device, loop_breaks, loop_closes, loop_is_explained, quad, single};
use nor_plan_laws::{planned_work, there_is_planned_work};

/// Work that is planned for a content, and changes only a part of the chip, is the planned work for
/// each content that has that part.
pub fn within()
    ensures { PlannedForAll }
{}

/// A chip was read twice, all of it or a part, and later planned work within that was done. Every
/// ready chip that explains both, whatever its quad setting, ends with the goal of what it held;
/// some chip explains them. Of what went over the wire between the two nothing is said.
pub fn closes()
    ensures { Closes }
{
    planned_work();
    device();
    loop_closes();
    loop_is_explained();
    quad();
}

/// A chip was read so, and later work within that halted. Every ready chip that explains both held
/// what it gave, and at most one unit of the work is in the making, also where the chip did what
/// came next, or some of its row. Some chip explains both.
///
/// The same holds where the work rests before a step.
pub fn breaks()
    ensures halts { Breaks }
    ensures rests { Rests }
{
    device();
    loop_breaks();
    loop_is_explained();
    quad();
    spelling();
    there_is_planned_work();
    single();
}

/// Each step of planned work is one that [`do_steps`](crate::do_steps) takes: what it sends and
/// what it samples fit its kind. Where the work is planned without the quad setting, a device can't
/// do a step only where the step is too long for its limits.
pub fn doable()
    ensures doable { PlannedIsDoable }
    ensures refused { RefusedForLength }
{
    effects();
    spelling();
    there_is_planned_work();
    single();
}
