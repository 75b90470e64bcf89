//! What is written of the work on a chip, a window at a time.

ghost use Rattle.std.specs.Prelude.{◌≡◌, ℕ, List, length, IfOk, IfErr};
ghost use Rattle.nor_base.specs.Units.{WorkUnit};
ghost use Rattle.nor_geometry.specs.Plan.{IsWindow};
ghost use Rattle.nor_steps.specs.Stretch.{stretch};
ghost use Rattle.nor_steps.specs.Faults.{CountsSteps};
ghost use Rattle.nor_steps.specs.Texts.{WroteText, StopsText, unit_steps};
ghost use Rattle.nor_steps.specs.Writing.{Writing, output};

use crate::fault::StepsFault;
use crate::tally::Tally;
use crate::writer::StepWriter;
use nor_base::ByteOut;
use std::alloc::Global;

/// Writes a text of the work on a chip, window after window, and tells how much its steps are: the
/// steps themselves ([`StepWriter`]), or what a plan says of them.
pub trait WorkWriter {
    /// How far the work is.
    ghost writing: { Self → Writing };

    /// The text of a unit of the work on a content and its target, by how far the work is before
    /// it.
    ghost unit_text: { Self → Writing → List ℕ → List ℕ → WorkUnit → List ℕ };

    /// Writes the text of the units that start in a window of the chip (one that
    /// [`plan`](nor_erase::plan) takes): `have` is what it holds from `at` on, `want` what it must
    /// hold. Returns how much their steps are.
    ///
    /// `Plan` names the lowest address at fault; nothing was written then. `Write` where the writer
    /// fails, `Memory` where a growth is refused.
    fn write_window<W: ByteOut>(
        &mut self,
        alloc: Global,
        at: u32,
        have: &[u8],
        want: &[u8],
        out: &mut W,
    ) -> Result<Tally, StepsFault>
        requires window { (length have.now ≡ length want.now)
            × IsWindow (writing self.old).streaming.meaning
            (writing self.old).streaming.by at (length have.now) }
        ensures written { IfOk result
            (WroteText (unit_text self.old) (output (writing self.old) (W.held out.old))
            (output (writing self.new) (W.held out.new)) (stretch at have.now want.now)) }
        ensures stopped { IfErr result
            (StopsText (unit_text self.old) (output (writing self.old) (W.held out.old))
            (W.held out.new) (stretch at have.now want.now)) }
        ensures text { unit_text self.new ≡ unit_text self.old }
        ensures count { CountsSteps (W.count out.old) (W.count out.new) result };
}

impl<'m> WorkWriter for StepWriter<'m> {
    ghost writing = { λ w. w };

    ghost unit_text = { λ _. unit_steps };

    fn write_window<W: ByteOut>(
        &mut self,
        alloc: Global,
        at: u32,
        have: &[u8],
        want: &[u8],
        out: &mut W,
    ) -> Result<Tally, StepsFault> {
        self.more(alloc, at, have, want, out)
    }
}
