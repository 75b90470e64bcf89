//! What becomes of instructions: their lines are written, or they are only counted. A
//! [`StepList`](crate::StepList) keeps their steps.

ghost use Rattle.std.specs.Prelude.{ℕ, List, Option, None, IfErr};
ghost use Rattle.nor_base.specs.Device.{Writes};
ghost use Rattle.nor_select.specs.View.{coded_of};
ghost use Rattle.nor_steps.specs.Faults.{CountsSteps, IsOfWriting};
ghost use Rattle.nor_steps.specs.Lines.{coded_line, lines_out, IsNarrow, AreNarrow};

use crate::fault::StepsFault;
use nor_base::ByteOut;
use nor_frames::clocks_into;
use nor_script::{write_poll, write_send, write_verify};
use nor_select::{Body, Instr};

/// Takes the instructions of the work as they are made, each as the line of its step.
pub trait InstrOut {
    /// The lines that it took, where it can say.
    ghost held: { Self → Option (List ℕ) };

    /// How often it failed.
    ghost count: { Self → ℕ };

    /// Takes instructions, in their order. `clocks` is memory for one step's clocks, which is used
    /// again.
    ///
    /// `Write` where it fails, `Memory` where a growth is refused; a proper prefix of the lines was
    /// taken then.
    fn take(&mut self, instrs: &[Instr<'_>], clocks: &mut Vec<u8>) -> Result<(), StepsFault>
        requires narrow { AreNarrow instrs.now }
        ensures lines { Writes (held self.old) (held self.new) result (lines_out instrs.now) }
        ensures count { CountsSteps (count self.old) (count self.new) result }
        ensures why { IfErr result IsOfWriting };
}

impl<W: ByteOut> InstrOut for W {
    ghost held = { λ out. W.held out };

    ghost count = { λ out. W.count out };

    fn take(&mut self, instrs: &[Instr<'_>], clocks: &mut Vec<u8>) -> Result<(), StepsFault> {
        for instr in instrs {
            write_instr(instr, clocks, self)?;
        }
        Ok(())
    }
}

/// For instructions that are only counted: it makes no clocks of them and no lines, and never
/// fails.
#[derive(Clone, Copy)]
pub struct Unwritten;

impl InstrOut for Unwritten {
    ghost held = { λ _. None };

    ghost count = { λ _. 0 };

    fn take(&mut self, _instrs: &[Instr<'_>], _clocks: &mut Vec<u8>) -> Result<(), StepsFault> {
        Ok(())
    }
}

/// Writes the line of an instruction.
fn write_instr<W: ByteOut>(
    instr: &Instr<'_>,
    clocks: &mut Vec<u8>,
    out: &mut W,
) -> Result<(), StepsFault>
    requires narrow { IsNarrow (coded_of instr.now) }
    ensures lines { Writes (W.held out.old) (W.held out.new) result
        (coded_line (coded_of instr.now)) }
    ensures count { CountsSteps (W.count out.old) (W.count out.new) result }
    ensures why { IfErr result IsOfWriting }
{
    clocks.clear();
    clocks_into(instr, clocks)?;
    match instr.body {
        Body::Poll => write_poll(clocks, out)?,
        Body::Read1(bytes) | Body::Read4(bytes) => write_verify(clocks, bytes, out)?,
        Body::Plain | Body::Write1(_) | Body::Write4(_) => write_send(clocks, out)?,
    }
    Ok(())
}
