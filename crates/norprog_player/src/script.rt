//! The steps of a script, as its file gives them.

ghost use Rattle.std.specs.Prelude.{◌≡◌, [], ◌∷◌, ◌++◌, IfOk, IfErr};
ghost use Rattle.nor_base.specs.Script.{IsScript};
ghost use Rattle.nor_script.specs.Stream.{CountsRead, HadText, StopsReader};
ghost use Rattle.nor_script.specs.View.{step_of};
ghost use Rattle.norprog_common.specs.Reading.{GivesSome};
ghost use Rattle.nor_script.specs.declared.fault.ScriptFault.TheVariants.{Memory};

use nor_base::ByteIn;
use nor_flasher::PackedSteps;
use nor_script::{ReadFault, ScriptFault, StepReader, StepView};
use std::alloc::Global;

/// The steps of a script, which is read once and of which only the steps are held.
///
/// Its first fault, as [`StepReader`] reports it; `Device` where the device failed; `Memory` where
/// a growth is refused.
pub(crate) fn read_steps<A: ByteIn>(alloc: Global, script: &mut A) -> Result<PackedSteps, ReadFault>
    ensures read { IfOk result
        (λ steps. HadText (A.ahead script.old) (A.ahead script.new)
        (λ text. IsScript text steps)) }
    ensures stopped { IfErr result (StopsReader (A.ahead script.old) (A.ahead script.new)) }
    ensures gave { GivesSome (A.ahead script.old) (A.ahead script.new) }
    ensures count { CountsRead (A.count script.old) (A.count script.new) result }
{
    let mut steps = PackedSteps::new(alloc);
    let mut reader = StepReader::begin(alloc, script)?;
    while reader.advance(script)? {
        keep(&mut steps, reader.view())?;
    }
    Ok(steps)
}

/// Keeps a step behind those before; `Memory` where a growth is refused.
fn keep(steps: &mut PackedSteps, step: StepView<'_>) -> Result<(), ScriptFault>
    ensures kept { IfOk result (λ _. steps.new ≡ steps.old ++ step_of step.entry ∷ []) }
    ensures refused { IfErr result (λ fault. fault ≡ Memory) }
{
    match steps.push(step) {
        Ok(()) => Ok(()),
        Err(_) => Err(ScriptFault::Memory),
    }
}
