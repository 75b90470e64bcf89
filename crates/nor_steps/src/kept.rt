//! The steps of instructions, kept.

ghost use Rattle.std.specs.Prelude.{◌≡◌, true, [], Some, IfOk, IfErr};
ghost use Rattle.std.specs.List.{AllByRecursion};
ghost use Rattle.nor_base.specs.Array.{are_bytes};
ghost use Rattle.nor_base.specs.Device.{Writes};
ghost use Rattle.nor_base.specs.Script.{step_lines};
ghost use Rattle.nor_laws.specs.Laws.{IsSpelled};
ghost use Rattle.nor_select.specs.View.{coded_of};
ghost use Rattle.nor_steps.specs.declared.fault.StepsFault.TheVariants.{Memory};
ghost use Rattle.nor_steps.specs.Lines.{coded_step, coded_line, IsNarrow};

use crate::fault::StepsFault;
use crate::lines::InstrOut;
use nor_base::{Bytes, Step};
use nor_frames::clocks_into;
use nor_select::{Body, Instr};
use std::alloc::Global;
use std::marker::Model;

/// Keeps the steps of the work.
#[derive(Drop)]
pub struct StepList {
    alloc: Global,
    steps: Vec<Step>,
}

impl Model for StepList {
    ghost use Rattle.std.specs.Prelude.{List};
    ghost use Rattle.std.specs.List.{AllByRecursion};
    ghost use Rattle.nor_base.specs.declared.step.Step.{Step};
    ghost use Rattle.nor_laws.specs.Laws.{IsSpelled};

    ghost Value = { List Step };

    ghost view = { λ l. l.steps.items };

    ghost invariant = { λ l. AllByRecursion IsSpelled l.steps.items };
}

impl StepList {
    /// None yet. It takes no memory.
    pub fn new(alloc: Global) -> StepList
        ensures { result ≡ [] }
    {
        StepList {
            alloc,
            steps: Vec::new(alloc),
        }
    }

    /// The steps, in their order.
    pub fn into_inner(self) -> Vec<Step>
        ensures steps { result.items ≡ self }
        ensures spelled { AllByRecursion IsSpelled result.items }
    {
        self.steps
    }

    /// Keeps the step of an instruction. After an error the steps are unchanged.
    fn keep(&mut self, instr: &Instr<'_>) -> Result<(), StepsFault>
        requires narrow { IsNarrow (coded_of instr.now) }
        ensures lines { Writes (Some (step_lines self.old)) (Some (step_lines self.new)) result
            (coded_line (coded_of instr.now)) }
        ensures why { IfErr result (λ fault. fault ≡ Memory) }
    {
        let step = step_of(self.alloc, instr)?;
        self.steps.push(step)?;
        Ok(())
    }
}

impl InstrOut for StepList {
    ghost held = { λ out. Some (step_lines out) };

    ghost count = { λ _. 0 };

    fn take(&mut self, instrs: &[Instr<'_>], _clocks: &mut Vec<u8>) -> Result<(), StepsFault> {
        for instr in instrs {
            self.keep(instr)?;
        }
        Ok(())
    }
}

/// The step of an instruction.
fn step_of(alloc: Global, instr: &Instr<'_>) -> Result<Step, StepsFault>
    requires narrow { IsNarrow (coded_of instr.now) }
    ensures step { IfOk result (λ step. step ≡ coded_step (coded_of instr.now)) }
    ensures spelled { IfOk result (λ step. IsSpelled step) }
    ensures why { IfErr result (λ fault. fault ≡ Memory) }
{
    let mut clocks = Vec::new(alloc);
    clocks_into(instr, &mut clocks)?;
    let clocks = Bytes::new(clocks);
    match instr.body {
        Body::Poll => Ok(Step::Poll { clocks }),
        Body::Read1(bytes) | Body::Read4(bytes) => {
            are_bytes(bytes);
            let expect = Bytes::new(Vec::from_slice(alloc, bytes)?);
            Ok(Step::Verify { clocks, expect })
        }
        Body::Plain | Body::Write1(_) | Body::Write4(_) => Ok(Step::Send { clocks }),
    }
}

/// Called for what it promises: the bytes of a slice are bytes.
fn are_bytes(_bytes: &[u8])
    ensures { are_bytes _bytes.now ≡ true }
{}
