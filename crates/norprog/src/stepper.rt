//! The steps of the work on a content in memory, a window of it after another.

ghost use Rattle.std.specs.Prelude.{◌≡◌, ◌<◌, ◌++◌, [], List, length, IfOk, nat_lt};
ghost use Rattle.nor_base.specs.declared.step.Step.{Step};
ghost use Rattle.norprog.specs.Stepper.{IsAtWindow, MakesMore, made, steps_by, update_of};
ghost use Rattle.norprog.specs.Update.{CanBeDone, IsDoneBy, update};

use nor_base::{Meaning, Start, Step};
use nor_geometry::{strategy, window_size};
use nor_laws::{script_texts, spelling};
use nor_plan_laws::there_is_planned_work;
use nor_steps::{StepList, StepWriter, StepsFault};
use std::alloc::{AllocError, Global};
use std::marker::Model;

/// Makes the steps of the work from what a chip holds to what it must hold, window after window.
#[derive(Drop)]
pub struct Stepper<'a> {
    writer: StepWriter<'a>,
    have: &'a [u8],
    want: &'a [u8],
    /// The steps of the units that start before this address are made.
    at: usize,
    window: usize,
}

impl<'a> Model for Stepper<'a> {
    ghost use Rattle.norprog.specs.Stepper.{Stepping};

    ghost Value = { Stepping };

    ghost view = { λ s. record {
      work = s.writer;
      have = s.have.now;
      want = s.want.now;
      at = s.at;
      window = s.window;
    } };
}

impl<'a> Stepper<'a> {
    /// One before the first window. It takes no memory.
    pub fn new(
        alloc: Global,
        meaning: &'a Meaning,
        start: &Start,
        verify: bool,
        have: &'a [u8],
        want: &'a [u8],
    ) -> Stepper<'a>
        requires workable { CanBeDone (update meaning.now start.now verify have.now want.now) }
        ensures ready { IsAtWindow result }
        ensures update { update_of result
            ≡ update meaning.now start.now verify have.now want.now }
        ensures none { made result ≡ [] }
        ensures only { (steps : List Step) → IsDoneBy (update_of result) steps
            → steps ≡ steps_by (update_of result) }
    {
        there_is_planned_work();
        spelling();
        let strategy = strategy(meaning, start);
        Stepper {
            writer: StepWriter::new(alloc, meaning, start, strategy, verify),
            have,
            want,
            at: 0,
            window: window_size(meaning) as usize,
        }
    }

    /// Whether the content has a window more.
    pub fn has_more(&self) -> bool
        ensures { result ≡ nat_lt self.now.at (length self.now.have) }
    {
        self.at < self.have.len()
    }

    /// The steps of the units that start in the next window.
    pub fn next_window(&mut self, alloc: Global) -> Result<Vec<Step>, AllocError>
        requires ready { IsAtWindow self.old }
        requires more { self.old.at < length self.old.have }
        ensures made { IfOk result (λ steps. MakesMore self.old self.new steps.items) }
    {
        there_is_planned_work();
        spelling();
        script_texts();
        let count = self.window.min(self.have.len() - self.at);
        let end = self.at + count;
        let have = &self.have[self.at..end];
        let want = &self.want[self.at..end];
        let mut steps = StepList::new(alloc);
        match self
            .writer
            .more(alloc, self.at as u32, have, want, &mut steps)
        {
            Ok(_) => {}
            Err(_) => return Err(AllocError),
        }
        self.at = end;
        Ok(steps.into_inner())
    }

    /// The steps that leave the mode that the work entered, after the last window.
    pub fn close(self, alloc: Global) -> Result<Vec<Step>, AllocError>
        requires ready { IsAtWindow self }
        requires whole { self.at ≡ length self.have }
        ensures whole { IfOk result
            (λ steps. steps_by (update_of self.entry) ≡ made self.entry ++ steps.items) }
    {
        there_is_planned_work();
        spelling();
        script_texts();
        let mut steps = StepList::new(alloc);
        match self.writer.close(alloc, &mut steps) {
            Ok(_) => Ok(steps.into_inner()),
            Err(_) => Err(AllocError),
        }
    }
}
