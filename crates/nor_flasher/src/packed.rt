//! A list of steps that takes little memory.

ghost use Rattle.std.specs.Prelude.{◌≡◌, ◌<◌, ◌-◌, ◌^◌, ◌++◌, ◌∷◌, ◌↔◌, [], true, All, length};
ghost use Rattle.std.specs.Prelude.{min, sum_by, take, IfOk, IfErr, IsTrue, MatchOption};
ghost use Rattle.nor_base.specs.Array.{is_filled};
ghost use Rattle.nor_serprog.specs.Done.{IsDoable};
ghost use Rattle.nor_serprog.specs.Steps.{AreCarried, IsFirstNotCarried};
ghost use Rattle.nor_script.specs.View.{step_of};
ghost use Rattle.nor_flasher.specs.Packed.{KeepsMore};
ghost use Rattle.nor_flasher.specs.Progress.{step_bytes};

use crate::kept::{Mark, keep};
use crate::steps::are_doable;
use nor_base::Step;
use nor_script::StepView;
use nor_serprog::{Limits, carried};
use std::alloc::{AllocError, Global};
use std::marker::Model;

#[cfg(test)]
mod tests;

/// How many steps are unpacked at a time, at most.
const WINDOW: usize = 256;

/// Steps, each kept as the bytes of its operation where its clocks are one: that is an eighth of
/// them.
#[derive(Drop)]
pub struct PackedSteps {
    /// What is kept of the steps, one after the other.
    bytes: Vec<u8>,
    /// What that is, of each step.
    marks: Vec<Mark>,
}

impl Model for PackedSteps {
    ghost use Rattle.std.specs.Prelude.{List};
    ghost use Rattle.nor_base.specs.declared.step.Step.{Step};
    ghost use Rattle.nor_flasher.specs.Packed.{unpacked, AreKept};

    ghost Value = { List Step };

    ghost view = { λ p. unpacked p.marks.items p.bytes.items };

    ghost invariant = { λ p. AreKept p.marks.items p.bytes.items };
}

impl PackedSteps {
    /// No steps. It takes no memory.
    pub fn new(alloc: Global) -> PackedSteps
        ensures { result ≡ [] }
    {
        PackedSteps {
            bytes: Vec::new(alloc),
            marks: Vec::new(alloc),
        }
    }

    /// How many steps there are.
    #[tactic(auto, using(crate::proofs::PackedLemmas::unpacked_count))]
    pub fn len(&self) -> usize
        ensures { result ≡ length self.now }
    {
        self.marks.len()
    }

    /// Appends a step. `Err` also comes where it has 2^32 clocks or more, or expects as many
    /// bytes.
    pub fn push(&mut self, step: StepView<'_>) -> Result<(), AllocError>
        ensures kept { IfOk result (λ _. self.new ≡ self.old ++ (step_of step.entry ∷ [])) }
        ensures stays { IfErr result (λ _. self.new ≡ self.old) }
    {
        let before = self.bytes.len();
        let pushed = push_kept(&mut self.bytes, &mut self.marks, step);
        if pushed.is_err() {
            self.bytes.truncate(before);
        }
        pushed
    }

    /// The steps, to be unpacked from the first on.
    pub fn unpack(&self) -> Unpacker<'_>
        ensures { result ≡ self.now }
    {
        Unpacker {
            bytes: self.bytes.as_slice(),
            marks: self.marks.as_slice(),
        }
    }

    /// As [`bus_bytes`](crate::bus_bytes) of the steps.
    pub fn bus_bytes(&self) -> u64
        ensures { result ≡ min (2 ^ 64 - 1) (sum_by step_bytes self.now) }
    {
        let mut all: u64 = 0;
        for mark in &self.marks {
            all = all.saturating_add(mark.bus_bytes());
        }
        all
    }

    /// The first step whose clocks are no operation of a device with these limits, counted from 0.
    pub fn first_not_carried(
        &self,
        alloc: Global,
        limits: &Limits,
    ) -> Result<Option<u64>, AllocError>
        ensures { IfOk result (λ at. MatchOption at (AreCarried limits.now self.now)
            (IsFirstNotCarried limits.now self.now)) }
    {
        let mut steps = self.unpack();
        while steps.has_more() {
            let before = (self.len() - steps.len()) as u64;
            let window = steps.next_window(alloc)?;
            if let Err(at) = carried(window.as_slice(), limits) {
                return Ok(Some(before + at));
            }
        }
        Ok(None)
    }

    /// Whether each step is one that [`do_step`](nor_serprog::do_step) takes.
    pub fn are_doable(&self, alloc: Global) -> Result<bool, AllocError>
        ensures { IfOk result (λ are. IsTrue are ↔ All IsDoable self.now) }
    {
        let mut steps = self.unpack();
        while steps.has_more() {
            let window = steps.next_window(alloc)?;
            if !are_doable(window.as_slice()) {
                return Ok(false);
            }
        }
        Ok(true)
    }
}

/// Appends what is kept of a step. Where a growth is refused, the bytes of a part of it may stand
/// there.
fn push_kept(
    bytes: &mut Vec<u8>,
    marks: &mut Vec<Mark>,
    step: StepView<'_>,
) -> Result<(), AllocError>
    ensures kept { IfOk result (λ _. KeepsMore bytes.old.items bytes.new.items marks.old.items
        marks.new.items (step_of step.entry)) }
    ensures marks { IfErr result (λ _. marks.new.items ≡ marks.old.items) }
    ensures before { take (length bytes.old.items) bytes.new.items ≡ bytes.old.items }
{
    let mark = keep(bytes, step)?;
    marks.push(mark)?;
    Ok(())
}

/// The steps of a list that are still to be unpacked.
#[derive(Drop)]
pub struct Unpacker<'a> {
    bytes: &'a [u8],
    marks: &'a [Mark],
}

impl<'a> Model for Unpacker<'a> {
    ghost use Rattle.std.specs.Prelude.{List};
    ghost use Rattle.nor_base.specs.declared.step.Step.{Step};
    ghost use Rattle.nor_flasher.specs.Packed.{unpacked, AreKept};

    ghost Value = { List Step };

    ghost view = { λ u. unpacked u.marks.now u.bytes.now };

    ghost invariant = { λ u. AreKept u.marks.now u.bytes.now };
}

impl<'a> Unpacker<'a> {
    /// How many there are.
    #[tactic(auto, using(crate::proofs::PackedLemmas::unpacked_count))]
    pub fn len(&self) -> usize
        ensures { result ≡ length self.now }
    {
        self.marks.len()
    }

    /// Whether there are more steps.
    #[tactic(auto, using(crate::proofs::PackedLemmas::unpacked_filled))]
    pub fn has_more(&self) -> bool
        ensures { result ≡ is_filled self.now }
    {
        !self.marks.is_empty()
    }

    /// The next steps: 256, or all that are left. Where memory is refused they are still to be
    /// unpacked.
    pub fn next_window(&mut self, alloc: Global) -> Result<Vec<Step>, AllocError>
        ensures next { IfOk result (λ steps. self.old ≡ steps.items ++ self.new) }
        ensures count { IfOk result (λ steps. length steps.items ≡ min 256 (length self.old)) }
        ensures fewer { IfOk result
            (λ _. is_filled self.old ≡ true → length self.new < length self.old) }
        ensures stays { IfErr result (λ _. self.new ≡ self.old) }
    {
        self.next(alloc, WINDOW)
    }

    /// All that are left.
    pub fn rest(self, alloc: Global) -> Result<Vec<Step>, AllocError>
        ensures { IfOk result (λ steps. steps.items ≡ self.entry) }
    {
        let mut steps = self;
        let all = steps.marks.len();
        steps.next(alloc, all)
    }

    /// The next so many steps, or all that are left.
    fn next(&mut self, alloc: Global, most: usize) -> Result<Vec<Step>, AllocError>
        ensures next { IfOk result (λ steps. self.old ≡ steps.items ++ self.new) }
        ensures count { IfOk result (λ steps. length steps.items ≡ min most (length self.old)) }
        ensures stays { IfErr result (λ _. self.new ≡ self.old) }
    {
        let (marks, later) = self.marks.split_at(self.marks.len().min(most));
        let mut steps = Vec::new(alloc);
        let mut rest = self.bytes;
        for mark in marks {
            let (kept, more) = rest.split_at(mark.kept_count());
            steps.push(mark.unpack(alloc, kept)?)?;
            rest = more;
        }
        self.marks = later;
        self.bytes = rest;
        Ok(steps)
    }
}
