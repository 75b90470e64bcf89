//! The work from what a chip holds to what it must hold.

ghost use Rattle.std.specs.Prelude.{◌≡◌, ◌⊎◌, List, length, IfOk, IfErr};
ghost use Rattle.nor_base.specs.declared.step.Step.{Step};
ghost use Rattle.nor_job.specs.declared.fault.BuildFault.TheVariants.{Memory};
ghost use Rattle.norprog_flash.specs.Refused.{late, RefusesWork, StopsPlanning};
ghost use Rattle.norprog_flash.specs.Work.{HasPlan, IsWork, plan_of};

use crate::goal::goal_of;
use crate::narrowed::{difference, narrowed};
use nor_base::{FromRead, IntoWrite};
use nor_job::{BuildFault, Inputs};
use nor_laws::targets;
use norprog::{Report, plan};
use std::alloc::Global;

/// What is to be done.
#[derive(Drop)]
pub struct Work {
    /// What the chip must hold after it, from address 0 on.
    pub goal: Vec<u8>,
    /// The lines of the plan.
    pub lines: Vec<u8>,
    pub report: Report,
}

/// Plans the work from a content to the target of the bytes of `old`, with the lines and the report
/// of the plan (docs/FORMATS.md, section 9). Memory is taken for all of it.
///
/// The refusals are those of [`goal_of`]; then `Plan` with the lowest address at fault, and
/// `Memory`.
pub fn work_for(
    alloc: Global,
    inputs: &Inputs<'_>,
    content: &[u8],
    old: &[u8],
) -> Result<Work, BuildFault>
    requires sizes { length content.now ≡ length old.now }
    ensures work { IfOk result
        (λ work. (steps : List Step)
        × IsWork inputs.now content.now old.now (plan_of work steps)) }
    ensures refused { IfErr result (RefusesWork inputs.now content.now old.now) }
{
    if old == content {
        fresh_work(alloc, inputs, content)
    } else {
        resumed_work(alloc, inputs, content, old)
    }
}

/// The work to the target of the content itself: the inputs' own plan has its lines.
fn fresh_work(alloc: Global, inputs: &Inputs<'_>, content: &[u8]) -> Result<Work, BuildFault>
    ensures work { IfOk result
        (λ work. (steps : List Step)
        × IsWork inputs.now content.now content.now (plan_of work steps)) }
    ensures refused { IfErr result (RefusesWork inputs.now content.now content.now) }
{
    let goal = goal_of(alloc, inputs, content)?;
    let (lines, report) = plan_lines(alloc, inputs, content)?;
    Ok(Work {
        goal: goal.bytes,
        lines,
        report,
    })
}

/// The work to the target of other bytes.
fn resumed_work(
    alloc: Global,
    inputs: &Inputs<'_>,
    content: &[u8],
    old: &[u8],
) -> Result<Work, BuildFault>
    requires sizes { length content.now ≡ length old.now }
    ensures work { IfOk result
        (λ work. (steps : List Step)
        × IsWork inputs.now content.now old.now (plan_of work steps)) }
    ensures refused { IfErr result (RefusesWork inputs.now content.now old.now) }
{
    let goal = goal_of(alloc, inputs, old)?;
    let image = difference(alloc, content, goal.bytes.as_slice())?;
    targets();
    let narrow = narrowed(inputs, &image);
    let (lines, report) = plan_lines(alloc, &narrow, content)?;
    let ignored = goal.ignored;
    Ok(Work {
        goal: goal.bytes,
        lines,
        report: Report { ignored, ..report },
    })
}

/// The lines and the report of the plan of a content.
fn plan_lines(
    alloc: Global,
    inputs: &Inputs<'_>,
    content: &[u8],
) -> Result<(Vec<u8>, Report), BuildFault>
    ensures plan { IfOk result (λ plan. HasPlan inputs.now content.now plan.0.items plan.1) }
    ensures stops { IfErr result
        (λ why. StopsPlanning inputs.now content.now content.now why ⊎ (why ≡ Memory)) }
{
    let mut lines = IntoWrite::new(Vec::new(alloc));
    let mut reader = FromRead::new(content);
    match plan(alloc, inputs, &mut reader, content.len() as u64, &mut lines) {
        Ok(report) => Ok((lines.into_inner(), report)),
        Err(why) => Err(late(why)),
    }
}

/// The fault of a plan of accepted inputs, whose content and lines are in memory: an address is at
/// fault, or memory.
fn late(why: BuildFault) -> BuildFault
    ensures { result ≡ late why }
{
    match why {
        BuildFault::Plan(_) => why,
        _ => BuildFault::Memory,
    }
}
