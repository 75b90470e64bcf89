//! From the bytes of inputs, script and content to a verdict.

ghost use Rattle.std.specs.Prelude.{◌≡◌, ◌⊎◌, List, IfOk, IfErr};
ghost use Rattle.nor_base.specs.declared.step.Step.{Step};
ghost use Rattle.nor_base.specs.Parameters.{Parameters};
ghost use Rattle.nor_base.specs.Script.{IsScript};
ghost use Rattle.nor_hex.specs.Image.{Pairs};
ghost use Rattle.nor_job.specs.Causes.{AreAccepted};
ghost use Rattle.nor_layout.specs.Region.{Region};
ghost use Rattle.nor_job.specs.Wanted.{ReadsWithin};
ghost use Rattle.nor_script.specs.Stream.{IsSpelled};
ghost use Rattle.norprog_check.specs.Checked.{checking, IsChecked, RefusesTexts};
ghost use Rattle.norprog_check.specs.Checked.{StopsCheck, IsLate};
ghost use Rattle.norprog_check.specs.Checked.{IsOfContent, CountsReader, IsFaultIn};

use crate::content::read_content;
use crate::fault::CheckStop;
use crate::finding::Finding;
use crate::judge::judge;
use nor_base::ByteIn;
use nor_job::{Inputs, job_of};
use nor_script::{ReadFault, TextIn, faultless_scripts};
use norprog_common::look_through;
use std::alloc::Global;

/// Whether the text of a script, from anybody, does the job of the inputs on every chip that they
/// describe and that holds what the reader gives; `No` as [`nor_check::check`], with a chip that
/// shows it. Memory is taken as [`crate::check_stream`] takes it.
///
/// Faults come in this order: those of the inputs, the text, the content.
pub fn check_script<R: ByteIn>(
    alloc: Global,
    inputs: &Inputs<'_>,
    script: &[u8],
    content: &mut R,
    len: u64,
) -> Result<Finding, CheckStop>
    ensures checked { IfOk result
        (IsChecked (checking inputs.now len (R.ahead content.old) (R.ahead content.new))
        script.now) }
    ensures refused { IfErr result
        (λ why. (RefusesTexts inputs.now len script.now why × (content.new ≡ content.old))
        ⊎ StopsCheck (checking inputs.now len (R.ahead content.old) (R.ahead content.new))
        script.now why) }
    ensures accepted { (image : Pairs) (regions : List Region) (m : Parameters)
        → AreAccepted inputs.now len image regions m
        → IfErr result IsLate }
    ensures spelled { (image : Pairs) (regions : List Region) (m : Parameters) (steps : List Step)
        → AreAccepted inputs.now len image regions m → IsScript script.now steps
        → IfErr result IsOfContent }
    ensures reads { ReadsWithin len (R.ahead content.old) (R.ahead content.new)
        × CountsReader (R.count content.old) (R.count content.new) result }
{
    faultless_scripts();
    let job = job_of(alloc, inputs, len)?;
    look_in(alloc, script)?;
    let (have, want) = read_content(alloc, &job, content)?;
    match judge(alloc, &job, have, want.as_slice(), &mut TextIn::new(script)) {
        Ok(found) => Ok(found),
        Err(ReadFault::Script(fault)) => Err(CheckStop::from(fault)),
        Err(ReadFault::Device(_)) => unreachable!("a text in memory never fails"),
    }
}

/// Looks through a text for its first fault.
#[tactic(auto, using(nor_base::proofs::DeviceLaws::risen_some))]
fn look_in(alloc: Global, script: &[u8]) -> Result<(), CheckStop>
    ensures spelled { IfOk result (λ _. IsSpelled script.now) }
    ensures stopped { IfErr result (IsFaultIn script.now) }
{
    match look_through(alloc, &mut TextIn::new(script)) {
        Ok(()) => Ok(()),
        Err(ReadFault::Script(fault)) => Err(CheckStop::from(fault)),
        Err(ReadFault::Device(_)) => unreachable!("a text in memory never fails"),
    }
}
