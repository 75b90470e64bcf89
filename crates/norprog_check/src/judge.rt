//! What is found of a script that a device tells, on the chips of a job.

ghost use Rattle.std.specs.Prelude.{◌≡◌, length, IfOk, IfErr};
ghost use Rattle.nor_base.specs.Chip.{IsPossible};
ghost use Rattle.nor_script.specs.Stream.{CountsRead, HadText, StopsReader};
ghost use Rattle.norprog_check.specs.Readings.{IsJudged};

use crate::finding::{Finding, finding_of};
use crate::readings::feed_script;
use nor_base::ByteIn;
use nor_check::StepChecker;
use nor_job::Job;
use nor_script::ReadFault;
use std::alloc::Global;

/// What is found of a script on the chips of a job that hold `have`, and are to hold `want`.
///
/// A fault is reported as [`feed_script`] reports it.
pub(crate) fn judge<A: ByteIn>(
    alloc: Global,
    job: &Job,
    have: Vec<u8>,
    want: &[u8],
    script: &mut A,
) -> Result<Finding, ReadFault>
    requires sizes { (length have.items ≡ job.now.meaning.size)
        × (length want.now ≡ job.now.meaning.size) }
    requires possible { IsPossible job.now.meaning job.now.start }
    ensures judged { IfOk result (λ found. HadText (A.ahead script.old) (A.ahead script.new)
        (IsJudged job.now have.items want.now found)) }
    ensures stopped { IfErr result (StopsReader (A.ahead script.old) (A.ahead script.new)) }
    ensures count { CountsRead (A.count script.old) (A.count script.new) result }
{
    let checker = StepChecker::new(alloc, &job.meaning, job.start, have);
    let said = feed_script(alloc, checker, want, script)?;
    Ok(finding_of(&said, &job.meaning))
}
