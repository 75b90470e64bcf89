//! A chip that is read, and planned for.

ghost use Rattle.std.specs.Prelude.{◌≡◌, ◌⊎◌, [], ◌∷◌, true, length, option_map, unwrap_or};
ghost use Rattle.std.specs.Prelude.{ℕ, List, Option, IfOk, IfErr, MatchResult, Ok};
ghost use Rattle.nor_base.specs.declared.step.Step.{Step};
ghost use Rattle.nor_job.specs.Status.{start_of};
ghost use Rattle.nor_job.specs.declared.fault.BuildFault.TheVariants.{Memory};
ghost use Rattle.norprog_common.specs.declared.faults.Refusal.TheVariants.{Build};
ghost use Rattle.norprog_common.specs.Rules.{BreaksRules, MeetsRules};
ghost use Rattle.nor_base.specs.Wire.{wire};
ghost use Rattle.norprog_flash.specs.Begun.{ask_of, copy_of, HasRead, IsPlanOf, PrintsPlan};
ghost use Rattle.norprog_flash.specs.Begun.{is_closed, printed};
ghost use Rattle.norprog_flash.specs.Begun.{rules_on, start_at};
ghost use Rattle.norprog_flash.specs.Dump.{AreOfPart};
ghost use Rattle.norprog_flash.specs.Task.{dump_of, first_held, flash_task, task_on};
ghost use Rattle.norprog_flash.specs.Work.{plan_of};
ghost use Rattle.nor_reader.specs.AtOnce.{at_once};
ghost use Rattle.nor_reader.specs.Harmless.{HasSentHarmless, SendsHarmless};
ghost use Rattle.nor_reader.specs.Laws.{GivesBy};
ghost use Rattle.norprog_flash.specs.Opened.{HasHeld, StopsHolding};
ghost use Rattle.norprog_flash.specs.Stops.{CantPlan, StopsBefore};

use crate::blank::blank_image;
use crate::dump::{copy_of, is_of_part, laid};
use crate::ending::Unflashed;
use crate::job::{Job, inputs_for};
use crate::near::near_for;
use crate::planned::{Work, work_for};
use crate::resumed::is_of_dump;
use crate::way::{write_last, write_plan};
use nor_base::{ByteIn, ByteOut, Start};
use nor_job::BuildFault;
use nor_reader::{ReadBy, suits};
use nor_serprog::{Limits, test_line};
use norprog_common::{Aim, FileName, ImageRules, Refusal, refuse_image};
use norprog_device::DeviceFault;
use norprog_read::{Ask, Reading, Span, first_by, read_chip};
use std::alloc::Global;

/// A chip that was read.
#[derive(Drop)]
pub struct Held {
    pub reading: Reading,
    /// What is to be saved in place of its content, where only a part of that was read: the part,
    /// as Intel HEX.
    pub copy: Option<Vec<u8>>,
    /// How it is read back.
    pub by: ReadBy,
}

/// Tests the line to a device, and reads its chip, which has to be able to take the work. How far
/// the readings are goes to `progress`. Nothing is sent that changes the chip.
pub fn hold<R: ByteIn, W: ByteOut, P: ByteOut>(
    alloc: Global,
    from: &mut R,
    to: &mut W,
    limits: &Limits,
    job: &Job<'_>,
    progress: &mut P,
) -> Result<Held, Unflashed>
    requires asked { (job.now.ask.content ≡ true) }
    ensures held { IfOk result (λ held. HasHeld limits.now job.now
        (wire (W.held to.old) (R.ahead from.old))
        (wire (W.held to.new) (R.ahead from.new)) held.reading
        × GivesBy held.reading.meaning
        (start_of (task_on job.now held.reading)) held.by) }
    ensures copy { IfOk result
        (λ held. option_map (λ text. text.items) held.copy ≡ copy_of job.now held.reading) }
    ensures stops { IfErr result (StopsHolding limits.now job.now
        (wire (W.held to.old) (R.ahead from.old))
        (wire (W.held to.new) (R.ahead from.new))) }
{
    match test_line(from, to, limits) {
        Ok(()) => read_suited(alloc, from, to, limits, job, progress),
        Err(why) => Err(Unflashed::Device(DeviceFault::Line(why))),
    }
}

/// Plans for a chip that was read; prints the plan, and then how to go on where the work stops on
/// the way. Where work is resumed the chip has to be the one of the older dump.
pub(crate) fn print_plan<O: ByteOut>(
    alloc: Global,
    job: &Job<'_>,
    reading: &Reading,
    out: &mut O,
) -> Result<Work, Refusal>
    ensures plan { IfOk result
        (λ work. (steps : List Step) × PrintsPlan job.now reading.now (plan_of work steps)
        (printed (O.held out.old) (O.held out.new))) }
    ensures refused { IfErr result
        (CantPlan job.now reading.now (printed (O.held out.old) (O.held out.new))) }
    ensures out_count { IfOk result (λ _. O.count out.new ≡ O.count out.old) }
{
    let held = reading.content.as_slice();
    let laid = laid_on(alloc, job, reading)?;
    let old = first_held(&laid, held);
    let work = plan_for(alloc, job, reading, old)?;
    match write_plan(job, &work, out) {
        Ok(()) => {}
        Err(_) => return Err(Refusal::WRITE),
    }
    if !is_of_dump(&reading.meaning, held, old, work.goal.as_slice()) {
        return Err(Refusal::File(FileName::Resume));
    }
    match write_last(job, reading, work.report.steps, out) {
        Ok(()) => Ok(work),
        Err(_) => Err(Refusal::WRITE),
    }
}

/// Plans for a chip that was read, and that held these bytes before work on it was begun.
fn plan_for(alloc: Global, job: &Job<'_>, reading: &Reading, old: &[u8]) -> Result<Work, Refusal>
    requires old { old.now ≡ first_held job.now reading.now }
    requires size { length old.now ≡ length reading.now.content.items }
    ensures work { IfOk result
        (λ work. (steps : List Step) × IsPlanOf job.now reading.now (plan_of work steps)) }
    ensures refused { IfErr result (λ why. (text : Option (List ℕ))
        → CantPlan job.now reading.now (printed text text) why) }
{
    let content = reading.content.as_slice();
    let image = blank_image(alloc, job.blank, content.len())?;
    let inputs = inputs_for(job, reading.tables.as_slice(), &image);
    match work_for(alloc, &inputs, content, old) {
        Ok(work) => Ok(work),
        Err(why) => Err(Refusal::Build(why)),
    }
}

/// What a chip held before work on it was begun, where work is resumed: what it gave, with the
/// older dump in its place, which has to be of just the part that was read.
fn laid_on(alloc: Global, job: &Job<'_>, reading: &Reading) -> Result<Option<Vec<u8>>, Refusal>
    ensures laid { IfOk result (λ laid. unwrap_or (option_map (λ all. all.items) laid)
        reading.now.content.items ≡ first_held job.now reading.now) }
    ensures fits { IfOk result
        (λ _. AreOfPart (dump_of job.now) reading.now.span reading.now.content.items) }
    ensures refused { IfErr result (λ why. (text : Option (List ℕ))
        → CantPlan job.now reading.now (printed text text) why) }
{
    let Some(dump) = job.old else {
        return Ok(None);
    };
    let content = reading.content.as_slice();
    if !is_of_part(dump, reading.span, content) {
        return Err(Refusal::Build(BuildFault::ContentSize));
    }
    match laid(alloc, dump, content) {
        Ok(all) => Ok(Some(all)),
        Err(_) => Err(Refusal::MEMORY),
    }
}

/// These bytes, or in their place what a chip holds.
fn first_held<'a>(laid: &'a Option<Vec<u8>>, content: &'a [u8]) -> &'a [u8]
    ensures { result.now
        ≡ unwrap_or (option_map (λ all. all.items) laid.entry.now) content.entry.now }
{
    match laid {
        Some(all) => all.as_slice(),
        None => content,
    }
}

/// Reads the chip, whose status has to show that it can take the work. The image has to keep the
/// job's rules.
fn read_suited<R: ByteIn, W: ByteOut, P: ByteOut>(
    alloc: Global,
    from: &mut R,
    to: &mut W,
    limits: &Limits,
    job: &Job<'_>,
    progress: &mut P,
) -> Result<Held, Unflashed>
    requires asked { (job.now.ask.content ≡ true) }
    ensures read { IfOk result
        (λ held. HasRead (at_once limits.now) job.now (wire (W.held to.old) (R.ahead from.old))
        (wire (W.held to.new) (R.ahead from.new)) held.reading) }
    ensures way { IfOk result
        (λ held. GivesBy held.reading.meaning
        (start_of (task_on job.now held.reading)) held.by) }
    ensures stops { IfErr result
        (StopsBefore (at_once limits.now) (wire (W.held to.old) (R.ahead from.old))
        (wire (W.held to.new) (R.ahead from.new)) job.now) }
    ensures copy { IfOk result
        (λ held. option_map (λ text. text.items) held.copy ≡ copy_of job.now held.reading) }
    ensures harmless { MatchResult result (λ _. HasSentHarmless (W.held to.old) (W.held to.new))
        (λ _. SendsHarmless (W.held to.old) (W.held to.new)) }
{
    let near = near_for(alloc, job)?;
    let reading = read_chip(alloc, from, to, limits, &ask_of(job, near), progress)?;
    let start = start_at(job, reading.status);
    if is_closed(job, start, reading.status) {
        return Err(Unflashed::Closed(reading.status));
    }
    let by = first_by(&reading.meaning, said_start(job));
    refuse_unruled(alloc, job, &reading)?;
    let copy = copy_of(alloc, job, &reading)?;
    Ok(Held { reading, copy, by })
}

/// What is asked of a job's chip: its content near these addresses, or all of it.
fn ask_of<'a>(job: &Job<'a>, near: Option<Span>) -> Ask<'a>
    ensures { result ≡ ask_of job.now near }
{
    Ask { near, ..job.ask }
}

/// Whether a status shows that the chip can't take work that isn't only a comparison.
fn is_closed(job: &Job<'_>, start: Start, status: u32) -> bool
    ensures { result ≡ is_closed job.now start status }
{
    match job.aim {
        Aim::Work | Aim::Plan => !suits(job.ask.part, start, status),
        Aim::Compare => false,
    }
}

/// Refuses a job whose image breaks its rules, on this chip.
fn refuse_unruled(alloc: Global, job: &Job<'_>, reading: &Reading) -> Result<(), Refusal>
    ensures meets { IfOk result (λ _. MeetsRules (rules_on job.now)
        (task_on job.now reading.now) (length reading.now.content.items)) }
    ensures breaks { IfErr result (λ why. BreaksRules (rules_on job.now)
        (task_on job.now reading.now) (length reading.now.content.items) why
        ⊎ (why ≡ Build Memory)) }
{
    let content = reading.content.as_slice();
    let image = blank_image(alloc, job.blank, content.len())?;
    let inputs = inputs_for(job, reading.tables.as_slice(), &image);
    refuse_image(alloc, rules_on(job), &inputs, content.len() as u64)
}

/// What the image has to give on a chip that was read. A region that is erased has to be all there.
fn rules_on(job: &Job<'_>) -> ImageRules
    ensures { result ≡ rules_on job.now }
{
    ImageRules {
        exact: job.rules.exact,
        strict: job.rules.strict,
        full: job.rules.full || job.blank,
        inside: job.rules.inside,
        lands: job.rules.lands,
    }
}

/// How the work is planned to begin: in the mode that was said, on one lane.
pub(crate) fn said_start(job: &Job<'_>) -> Start
    ensures { result ≡ start_of (flash_task job.now [] 0) }
{
    Start {
        mode4: job.ask.mode4,
        quad: false,
    }
}

/// How the chip begins: in the mode that was said, and with the quad setting that its status has.
fn start_at(job: &Job<'_>, status: u32) -> Start
    ensures { result ≡ start_at job.now status }
{
    Start {
        mode4: job.ask.mode4,
        quad: (status >> 9) % 2 == 1,
    }
}
