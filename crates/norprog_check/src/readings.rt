//! The reading of a script for its steps, with which a checker is fed as they come.

ghost use Rattle.std.specs.Prelude.{◌≡◌, ◌<◌, ◌+◌, ◌-◌, ◌^◌, ◌∷◌, ℕ, List, length, IfOk, IfErr};
ghost use Rattle.nor_base.specs.declared.step.Step.{Step};
ghost use Rattle.nor_check.specs.Fed.{IsShown, to_come};
ghost use Rattle.nor_check.specs.declared.verdict.Verdict.{Verdict};
ghost use Rattle.nor_check.specs.declared.verdict.Witness.{Witness};
ghost use Rattle.nor_script.specs.Stream.{CountsRead, HadText, StopsReader};
ghost use Rattle.nor_script.specs.View.{step_of};
ghost use Rattle.nor_script.specs.declared.fault.ReadFault.TheVariants.{Script};
ghost use Rattle.nor_script.specs.declared.fault.ScriptFault.TheVariants.{Memory};
ghost use Rattle.norprog_check.specs.Readings.{IsSaidOf};

use nor_base::ByteIn;
use nor_check::{CheckFault, StepChecker, Verdict, Witness};
use nor_script::{ReadFault, ScriptFault, StepReader, StepView};
use std::alloc::Global;

/// What a checker says after its last step.
#[derive(Clone, Copy)]
pub(crate) struct Said {
    pub(crate) verdict: Verdict,
    /// How many steps there were.
    pub(crate) steps: u64,
    /// Of a no, a chip that shows it.
    pub(crate) witness: Witness,
}

/// What a checker says of a target that is fed with the steps of a script, each as it comes.
///
/// A fault of the text, or of its device, is reported as [`StepReader::advance`] reports it;
/// `Memory` also where the checker is refused a growth.
pub(crate) fn feed_script<A: ByteIn>(
    alloc: Global,
    checker: StepChecker<'_>,
    want: &[u8],
    script: &mut A,
) -> Result<Said, ReadFault>
    requires begins { (checker.number ≡ 0) × (length want.now ≡ checker.size) }
    ensures told { IfOk result (λ said. HadText (A.ahead script.old) (A.ahead script.new)
        (IsSaidOf checker.entry want.now said)) }
    ensures stopped { IfErr result (StopsReader (A.ahead script.old) (A.ahead script.new)) }
    ensures count { CountsRead (A.count script.old) (A.count script.new) result }
{
    let mut checker = checker;
    let mut reader = StepReader::begin(alloc, script)?;
    while reader.advance(script)? {
        feed(alloc, &mut checker, reader.view())?;
    }
    Ok(Said {
        verdict: checker.verdict(want),
        steps: checker.number(),
        witness: checker.witness(want),
    })
}

/// Gives a checker the next step; `Memory` where a growth is refused.
fn feed(alloc: Global, checker: &mut StepChecker<'_>, step: StepView<'_>) -> Result<(), ReadFault>
    requires { checker.old.number < 2 ^ 64 - 1 }
    ensures fed { IfOk result (λ _. (want : List ℕ) (more : List Step)
        → to_come checker.new want more ≡ to_come checker.old want (step_of step.entry ∷ more)) }
    ensures shown { IfOk result (λ _. (want : List ℕ) (more : List Step) (v : Verdict) (w : Witness)
        → IsShown checker.new want more v w
        → IsShown checker.old want (step_of step.entry ∷ more) v w) }
    ensures number { IfOk result (λ _. checker.new.number ≡ checker.old.number + 1) }
    ensures size { checker.new.size ≡ checker.old.size }
    ensures refused { IfErr result (λ fault. fault ≡ Script Memory) }
{
    let fed = match step {
        StepView::Send { clocks } => checker.send(alloc, clocks),
        StepView::Poll { clocks } => checker.poll(alloc, clocks),
        StepView::Verify { clocks, expect } => checker.verify(alloc, clocks, expect),
    };
    match fed {
        Ok(()) => Ok(()),
        Err(CheckFault::Memory) => Err(ReadFault::Script(ScriptFault::Memory)),
    }
}
