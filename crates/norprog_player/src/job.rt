//! From the bytes of the inputs to what is to be played, and on which chip.

ghost use Rattle.std.specs.Prelude.{◌≡◌, IfOk, IfErr};
ghost use Rattle.nor_base.specs.Script.{IsScript};
ghost use Rattle.nor_job.specs.Status.{start_of};
ghost use Rattle.norprog_common.specs.Content.{CountsReader};
ghost use Rattle.nor_script.specs.Stream.{HadText, IsSpelled};
ghost use Rattle.norprog_player.specs.Job.{IsSized, IsReady, RefusesSize, RefusesScript};
ghost use Rattle.norprog_player.specs.Job.{source, sources, RefusesJob};
ghost use Rattle.norprog_common.specs.Reading.{GivesSome};
ghost use Rattle.norprog_player.specs.Job.{CountsScript, IsOfChip, IsEarly};

use crate::script::read_steps;
use nor_base::{ByteIn, Meaning, Start};
use nor_flasher::PackedSteps;
use nor_job::{BuildFault, Inputs};
use nor_script::ReadFault;
use norprog_common::{FileName, Refusal, known_chip, read_content};
use std::alloc::Global;

/// Steps, and the chip that they are to be played on.
#[derive(Drop)]
pub struct Job {
    pub meaning: Meaning,
    pub start: Start,
    pub steps: PackedSteps,
    /// What the chip holds, from address 0 on.
    pub content: Vec<u8>,
}

/// What is to be played: the steps that a script spells, on the chip of the inputs. `content` gives
/// what it holds, `len` bytes from address 0 on. Memory is taken for steps and content.
///
/// The first fault is reported: those of the inputs with nothing read; those of the script before
/// any content is read; those of the content.
pub fn job_of<A: ByteIn, R: ByteIn>(
    alloc: Global,
    inputs: &Inputs<'_>,
    script: &mut A,
    content: &mut R,
    len: u64,
) -> Result<Job, Refusal>
    ensures ready { IfOk result (λ job. (job.start ≡ start_of inputs.now) × IsReady (sources
        inputs.now len (source (A.ahead script.old) (A.ahead script.new))
        (source (R.ahead content.old) (R.ahead content.new))) job.meaning job.steps
        job.content.items) }
    ensures refused { IfErr result (RefusesJob (sources inputs.now len
        (source (A.ahead script.old) (A.ahead script.new))
        (source (R.ahead content.old) (R.ahead content.new)))) }
    ensures unread { IfErr result (λ why. (IsOfChip why → script.new ≡ script.old)
        × (IsEarly why → content.new ≡ content.old)) }
    ensures counts { CountsReader (R.count content.old) (R.count content.new) result
        × CountsScript (A.count script.old) (A.count script.new) result
        × GivesSome (A.ahead script.old) (A.ahead script.new) }
{
    let (meaning, start) = sized_chip(inputs, len)?;
    let steps = steps_of(alloc, script)?;
    let content = read_content(alloc, content, meaning.size)?;
    Ok(Job {
        meaning,
        start,
        steps,
        content,
    })
}

/// The steps of a script: its fault, or `File` of `Script` where its reader fails.
fn steps_of<A: ByteIn>(alloc: Global, script: &mut A) -> Result<PackedSteps, Refusal>
    ensures read { IfOk result
        (λ steps. HadText (A.ahead script.old) (A.ahead script.new)
        (λ text. IsScript text steps)) }
    ensures spelled { IfOk result
        (λ _. HadText (A.ahead script.old) (A.ahead script.new) IsSpelled) }
    ensures refused { IfErr result (RefusesScript (A.ahead script.old) (A.ahead script.new)) }
    ensures gave { GivesSome (A.ahead script.old) (A.ahead script.new) }
    ensures count { CountsScript (A.count script.old) (A.count script.new) result }
{
    match read_steps(alloc, script) {
        Ok(steps) => Ok(steps),
        Err(ReadFault::Script(fault)) => Err(Refusal::from(fault)),
        Err(ReadFault::Device(_)) => Err(Refusal::File(FileName::Script)),
    }
}

/// The chip that the inputs describe, whose content has `len` bytes, and how it begins.
///
/// `Contradiction`, `Sfdp` or `Sheet`, `Status`, `ModeImpossible` and `ContentSize`, in this order.
fn sized_chip(inputs: &Inputs<'_>, len: u64) -> Result<(Meaning, Start), Refusal>
    ensures sized { IfOk result (λ chip. IsSized inputs.now len chip.0) }
    ensures start { IfOk result (λ chip. chip.1 ≡ start_of inputs.now) }
    ensures refused { IfErr result (RefusesSize inputs.now len) }
{
    let (meaning, start) = known_chip(inputs)?;
    if len != u64::from(meaning.size) {
        return Err(Refusal::Build(BuildFault::ContentSize));
    }
    Ok((meaning, start))
}
