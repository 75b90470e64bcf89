//! Work on a chip that was read, and whose content is saved.

ghost use Rattle.std.specs.Prelude.{◌≡◌, ◌<◌, false, true, slice_index};
ghost use Rattle.std.specs.Prelude.{IfOk, IfErr, List, Option, ℕ};
ghost use Rattle.nor_base.specs.declared.step.Step.{Step};
ghost use Rattle.nor_job.specs.Status.{start_of};
ghost use Rattle.nor_reader.specs.AtOnce.{at_once};
ghost use Rattle.nor_reader.specs.Laws.{GivesBy};
ghost use Rattle.norprog_flash.specs.Begun.{HasRead, IsPlannedOn, IsReadOn, printed, session};
ghost use Rattle.norprog_flash.specs.Ended.{EndsWork, IsCompared, IsPlanned};
ghost use Rattle.norprog_common.specs.declared.given.Aim.TheVariants as aim;
ghost use Rattle.norprog_flash.specs.Stops.{CantPlan};
ghost use Rattle.norprog_flash.specs.Task.{task_on};
ghost use Rattle.nor_base.specs.Wire.{Wire, wire};
ghost use Rattle.norprog_flash.specs.Worked.{GoesOn};
ghost use Rattle.norprog_flash.specs.Work.{plan_of};

use crate::begun::{Held, print_plan, said_start};
use crate::blank::blank_image;
use crate::compared::compare;
use crate::ending::Ending;
use crate::job::{Job, inputs_for, may_go_on};
use crate::planned::Work;
use crate::survey::{Unbegun, look_through};
use crate::windows::Steps;
use crate::work::{Back, do_work};
use nor_base::{ByteIn, ByteOut, Meaning, put_all};
use nor_flasher::{breaks, closes, doable};
use nor_serprog::Limits;
use norprog::Stepper;
use norprog_common::{Aim, Refusal};
use norprog_device::{Doing, Failure};
use norprog_read::Reading;
use std::alloc::{AllocError, Global};

/// What is told where the page is open.
const PAGE_TOLD: &[u8] =
    b"its page may be larger than its tables say: with the data sheet's, --page N, it is quicker\n";

/// Plans for a chip that was read, and prints the plan. Then, where the work is wanted, it has the
/// device do that and read the chip back. How far it is goes to `progress`. Or it only compares.
///
/// What the chip held must be saved before. Without work nothing is sent.
pub fn go_on<R: ByteIn, W: ByteOut, O: ByteOut, P: ByteOut>(
    alloc: Global,
    from: &mut R,
    to: &mut W,
    limits: &Limits,
    job: &Job<'_>,
    held: &Held,
    out: &mut O,
    progress: &mut P,
) -> Result<Ending, Refusal>
    requires whole { job.now.ask.content ≡ true }
    requires read { IsReadOn (at_once limits.now) job.now held.now.reading
        × GivesBy held.now.reading.meaning
        (start_of (task_on job.now held.now.reading)) held.now.by }
    ensures ends { (first : Wire) → HasRead (at_once limits.now) job.now first
        (wire (W.held to.old) (R.ahead from.old)) held.now.reading
        → IfOk result (EndsWork (session job.now limits.now held.now.reading) first
        (wire (W.held to.new) (R.ahead from.new)) (printed (O.held out.old) (O.held out.new))) }
    ensures refused { IfErr result
        (CantPlan job.now held.now.reading (printed (O.held out.old) (O.held out.new))) }
    ensures unsent { IfErr result (λ _. (to.new ≡ to.old) × (from.new ≡ from.old)) }
    ensures works { IfOk result (λ _. O.count out.new ≡ O.count out.old) }
{
    match job.aim {
        Aim::Work => work_through(alloc, from, to, limits, job, held, out, progress),
        Aim::Plan => only_plan(alloc, job, &held.reading, out),
        Aim::Compare => compare_read(alloc, job, &held.reading),
    }
}

/// Plans for a chip that was read, prints the plan, and has the device do the work and read the
/// chip back.
fn work_through<R: ByteIn, W: ByteOut, O: ByteOut, P: ByteOut>(
    alloc: Global,
    from: &mut R,
    to: &mut W,
    limits: &Limits,
    job: &Job<'_>,
    held: &Held,
    out: &mut O,
    progress: &mut P,
) -> Result<Ending, Refusal>
    requires whole { (job.now.aim ≡ aim.Work) × (job.now.ask.content ≡ true) }
    requires read { IsReadOn (at_once limits.now) job.now held.now.reading
        × GivesBy held.now.reading.meaning
        (start_of (task_on job.now held.now.reading)) held.now.by }
    ensures ends { (first : Wire) → HasRead (at_once limits.now) job.now first
        (wire (W.held to.old) (R.ahead from.old)) held.now.reading
        → IfOk result (EndsWork (session job.now limits.now held.now.reading) first
        (wire (W.held to.new) (R.ahead from.new)) (printed (O.held out.old) (O.held out.new))) }
    ensures refused { IfErr result
        (CantPlan job.now held.now.reading (printed (O.held out.old) (O.held out.new))) }
    ensures unsent { IfErr result (λ _. (to.new ≡ to.old) × (from.new ≡ from.old)) }
    ensures works { IfOk result (λ _. O.count out.new ≡ O.count out.old) }
{
    closes();
    breaks();
    are_bytes(held.reading.content.as_slice());
    let work = print_plan(alloc, job, &held.reading, out)?;
    tell_page(&held.reading.meaning, progress);
    match work_on(alloc, from, to, limits, job, held, &work, progress) {
        Ok(ending) => Ok(ending),
        Err(_) => Err(Refusal::MEMORY),
    }
}

/// Called for what it promises: the bytes of a slice are bytes.
fn are_bytes(_bytes: &[u8])
    ensures { (a : ℕ) → slice_index _bytes.now a < 256 }
{}

/// Tells that the page of the data sheet makes the work quicker, where the tables leave it open.
fn tell_page<P: ByteOut>(meaning: &Meaning, progress: &mut P)
    ensures { meaning.now.open_page ≡ false → progress.new ≡ progress.old }
{
    if meaning.open_page {
        let _ = put_all(progress, PAGE_TOLD);
    }
}

/// Plans for a chip that was read, and prints the plan.
fn only_plan<O: ByteOut>(
    alloc: Global,
    job: &Job<'_>,
    reading: &Reading,
    out: &mut O,
) -> Result<Ending, Refusal>
    ensures planned { IfOk result
        (IsPlanned job.now reading.now (printed (O.held out.old) (O.held out.new))) }
    ensures refused { IfErr result
        (CantPlan job.now reading.now (printed (O.held out.old) (O.held out.new))) }
    ensures works { IfOk result (λ _. O.count out.new ≡ O.count out.old) }
{
    print_plan(alloc, job, reading, out)?;
    Ok(Ending::Planned)
}

/// Compares what was read with the target.
fn compare_read(alloc: Global, job: &Job<'_>, reading: &Reading) -> Result<Ending, Refusal>
    ensures compared { IfOk result (IsCompared job.now reading.now) }
    ensures refused { IfErr result (λ why. (text : Option (List ℕ))
        → CantPlan job.now reading.now (printed text text) why) }
{
    let content = reading.content.as_slice();
    let image = blank_image(alloc, job.blank, content.len())?;
    let inputs = inputs_for(job, reading.tables.as_slice(), &image);
    match compare(alloc, &inputs, content) {
        Ok(comparison) => Ok(Ending::Compared(comparison)),
        Err(why) => Err(Refusal::Build(why)),
    }
}

/// Has the device do work that was planned, where it can do each step.
fn work_on<R: ByteIn, W: ByteOut, P: ByteOut>(
    alloc: Global,
    from: &mut R,
    to: &mut W,
    limits: &Limits,
    job: &Job<'_>,
    held: &Held,
    work: &Work,
    progress: &mut P,
) -> Result<Ending, AllocError>
    requires planned { (steps : List Step)
        × IsPlannedOn (session job.now limits.now held.now.reading) (plan_of work.now steps) }
    requires way { GivesBy held.now.reading.meaning
        (start_of (task_on job.now held.now.reading)) held.now.by }
    ensures goes { (steps : List Step)
        → IsPlannedOn (session job.now limits.now held.now.reading) (plan_of work.now steps)
        → IfOk result (GoesOn (session job.now limits.now held.now.reading)
        (wire (W.held to.old) (R.ahead from.old)) (wire (W.held to.new) (R.ahead from.new))
        (plan_of work.now steps)) }
    ensures unsent { IfErr result (λ _. (to.new ≡ to.old) × (from.new ≡ from.old)) }
{
    doable();
    let start = said_start(job);
    let meaning = &held.reading.meaning;
    let have = held.reading.content.as_slice();
    let want = work.goal.as_slice();
    let stepper = Stepper::new(alloc, meaning, &start, true, have, want);
    let all = work.report.steps;
    let survey = match look_through(alloc, stepper, limits, all) {
        Ok(seen) => seen,
        Err(Unbegun::Memory) => return Err(AllocError),
        Err(Unbegun::Carried(step)) => {
            let why = Failure::Carried;
            return Ok(Ending::Failed { step, why });
        }
    };
    let steps = Steps {
        stepper: Stepper::new(alloc, meaning, &start, true, have, want),
        all,
        survey,
    };
    let doing = Doing {
        limits,
        turns: job.ask.turns,
        meaning,
    };
    let back = Back {
        bytes: want,
        part: held.reading.span,
        by: held.by,
        larger: may_go_on(job),
    };
    Ok(do_work(alloc, from, to, &doing, steps, &back, progress))
}
