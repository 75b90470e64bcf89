//! Writes the steps of the work.

ghost use Rattle.std.specs.Prelude.{◌≡◌, ◌≤◌, ◌+◌, ◌*◌, map, length, IfOk, IfErr};
ghost use Rattle.nor_select.specs.Streamed.{next, last};
ghost use Rattle.nor_select.specs.View.{op_of};
ghost use Rattle.nor_steps.specs.Faults.{CountsSteps, IsOfWriting};
ghost use Rattle.nor_steps.specs.Writing.{Adds, fresh, lines_of, next_lines, written_on};

use crate::fault::StepsFault;
use crate::lines::InstrOut;
use nor_base::{Meaning, Start, Strategy};
use nor_select::{Lowerer, Op};
use std::alloc::Global;
use std::marker::Model;

/// Writes the steps of the work, window after window.
#[derive(Drop)]
pub struct StepWriter<'m> {
    pub(crate) lowerer: Lowerer<'m>,
    pub(crate) verify: bool,
    clocks: Vec<u8>,
}

impl<'m> Model for StepWriter<'m> {
    ghost use Rattle.nor_steps.specs.Writing.{Writing};

    ghost Value = { Writing };

    ghost view = { λ w. record { streaming = w.lowerer; verify = w.verify } };
}

impl<'m> StepWriter<'m> {
    /// One for a chip, the start that it has and the strategy by which it is driven. `verify` asks
    /// for a read of what was written. It takes no memory.
    pub fn new(
        alloc: Global,
        meaning: &'m Meaning,
        start: &Start,
        strategy: Strategy,
        verify: bool,
    ) -> StepWriter<'m>
        ensures { result ≡ fresh meaning.now start.now strategy verify }
    {
        StepWriter {
            lowerer: Lowerer::new(meaning, start, strategy),
            verify,
            clocks: Vec::new(alloc),
        }
    }

    /// The chip's meaning.
    pub fn meaning(&self) -> &'m Meaning
        ensures { result.now ≡ self.now.streaming.meaning }
    {
        self.lowerer.meaning()
    }

    /// How the chip is driven.
    pub fn strategy(&self) -> Strategy
        ensures { result ≡ self.now.streaming.by }
    {
        self.lowerer.strategy()
    }

    /// Writes the steps of operations, and returns how many they are.
    pub(crate) fn write_ops<W: InstrOut>(
        &mut self,
        alloc: Global,
        ops: &[Op<'_>],
        out: &mut W,
    ) -> Result<u64, StepsFault>
        ensures lines { Adds (W.held out.old) (W.held out.new) result
            (next_lines self.old (map op_of ops.now)) }
        ensures steps { IfOk result (λ steps.
            steps ≡ length (next self.old.streaming (map op_of ops.now))) }
        ensures few { IfOk result (λ steps. steps ≤ 3 + 3 * length ops.now) }
        ensures onward { IfOk result (λ _. self.new ≡ written_on self.old (map op_of ops.now)) }
        ensures fails { CountsSteps (W.count out.old) (W.count out.new) result
            × IfErr result IsOfWriting }
    {
        let instrs = self.lowerer.more(alloc, ops)?;
        out.take(&instrs, &mut self.clocks)?;
        Ok(instrs.len() as u64)
    }

    /// Writes the steps that leave the mode that was entered, and returns how many they are, at
    /// most three.
    ///
    /// `Write` where the writer fails, `Memory` where a growth is refused: a beginning of these
    /// steps was written then.
    pub fn close<W: InstrOut>(self, alloc: Global, out: &mut W) -> Result<u64, StepsFault>
        ensures lines { Adds (W.held out.old) (W.held out.new) result
            (lines_of (last self.entry.streaming)) }
        ensures steps { IfOk result (λ steps. steps ≡ length (last self.entry.streaming)) }
        ensures few { IfOk result (λ steps. steps ≤ 3) }
        ensures count { CountsSteps (W.count out.old) (W.count out.new) result }
        ensures why { IfErr result IsOfWriting }
    {
        let mut clocks = self.clocks;
        let instrs = self.lowerer.close(alloc)?;
        out.take(&instrs, &mut clocks)?;
        Ok(instrs.len() as u64)
    }
}
