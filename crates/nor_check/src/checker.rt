//! The checker.

ghost use Rattle.std.specs.Prelude.{◌≡◌, ◌↔◌, ℕ, ◌<◌, ◌+◌, ◌-◌, ◌^◌, ◌==◌, ◌∷◌, [], List, length};
ghost use Rattle.std.specs.Prelude.{IfOk, IfSome, OnErr};
ghost use Rattle.nor_base.specs.Chip.{IsPossible};
ghost use Rattle.nor_base.specs.Run.{DoesTaskOnEvery};
ghost use Rattle.nor_base.specs.declared.step.Step.{Step};
ghost use Rattle.nor_base.specs.declared.step.Step.TheVariants.{Send, Poll, Verify};
ghost use Rattle.nor_check.specs.declared.verdict.Verdict.{Verdict};
ghost use Rattle.nor_check.specs.declared.verdict.Verdict.TheVariants.{Yes, No};
ghost use Rattle.nor_check.specs.declared.verdict.Why.{Why};
ghost use Rattle.nor_check.specs.declared.verdict.Witness.{Witness};
ghost use Rattle.nor_check.specs.Fed.{IsShown, reads_after, to_come, verdict_at};
ghost use Rattle.nor_check.specs.Outcome.{trial};
ghost use Rattle.nor_check.specs.View.{step_of};
ghost use Rattle.nor_check.specs.Witness.{Witnesses, reads_before, even};
ghost use Rattle.nor_check.specs.Worst.{IsWorst};

use crate::pages::AllPages;
use crate::verdict::{CheckFault, Verdict, Why, Witness};
use crate::view::{StepView, in_a_row, view_of};
use nor_base::{Meaning, Start, Step, Wrong};
use nor_laws::{effects, polls, verifying_reads};
use std::alloc::Global;
use std::marker::Model;

/// A checker that is fed with the steps of a script, one after another, and says of a target at
/// their end what [`check`] says of them all. Its clauses speak of the verdict to come: what it
/// will say at the end, if some steps come and then the end.
///
/// It holds no step. Its memory is one array of the meaning's size; where the page is only known to
/// be so large or larger, and from the first program on that leaves the least page, one for each
/// page that may be.
#[derive(Drop)]
pub struct StepChecker<'a> {
    chips: AllPages<'a>,
    meaning: &'a Meaning,
    number: u64,
    stopped: Option<Verdict>,
    page: u32,
    reads: u64,
}

impl<'a> Model for StepChecker<'a> {
    ghost use Rattle.nor_check.specs.Fed.{Fed};

    ghost Value = { Fed };

    ghost use Rattle.std.specs.Prelude.{◌≡◌, ◌≤◌, None};
    ghost use Rattle.nor_check.specs.Pages.{HaveSize};

    ghost view = { λ c. record {
      size = c.meaning.now.size;
      number = c.number;
      chips = c.chips;
      stopped = c.stopped;
      page = c.page;
      reads = c.reads;
    } };

    ghost invariant = { λ c. (c.stopped ≡ None → HaveSize c.meaning.now.size c.chips)
        × (c.reads ≤ c.number) };
}

impl<'a> StepChecker<'a> {
    /// A checker before the first step: of the scripts on ready chips of a meaning and a start that
    /// hold `have`. What it says of steps to come and a target is what [`check`] says. It asks for
    /// no memory: `have` becomes its array.
    pub fn new(alloc: Global, meaning: &'a Meaning, start: Start, have: Vec<u8>) -> StepChecker<'a>
        requires contents { (length have.items ≡ meaning.now.size)
            × IsPossible meaning.now start }
        ensures worst { (want : List ℕ) (steps : List Step) → IsWorst
            (trial meaning.now start have.items want steps) (to_come result want steps) }
        ensures yes { (want : List ℕ) (steps : List Step) → length want ≡ meaning.now.size
            → ((to_come result want steps ≡ Yes)
            ↔ DoesTaskOnEvery meaning.now start have.items want steps) }
        ensures shown { (want : List ℕ) (steps : List Step) (step : ℕ) (why : Why) (w : Witness)
            → IsShown result want steps (No step why) w → (n : ℕ) → w.reads < n
            → Witnesses (trial meaning.now start have.items want steps) step why
            (even n (step == length steps) w.page) }
        ensures counted { (want : List ℕ) (steps : List Step) (step : ℕ) (why : Why) (w : Witness)
            → IsShown result want steps (No step why) w → w.reads ≡ reads_before step steps }
        ensures begins { (result.number ≡ 0) × (result.size ≡ meaning.now.size) }
    {
        effects();
        polls();
        verifying_reads();
        StepChecker {
            chips: AllPages::new(alloc, meaning, start, have),
            meaning,
            number: 0,
            stopped: None,
            page: meaning.page,
            reads: 0,
        }
    }

    /// How many steps it was fed.
    pub fn number(&self) -> u64
        ensures { result ≡ self.now.number }
    {
        self.number
    }

    /// Takes the next step: the verdict to come is then what it was with this step in front of
    /// those that follow. `Memory` where a growth is refused, which only the first step asks for
    /// that tells chips of different pages apart; the step isn't taken then, and may be given
    /// again.
    pub fn step(&mut self, alloc: Global, step: &Step) -> Result<(), CheckFault>
        requires { self.old.number < 2 ^ 64 - 1 }
        ensures fed { IfOk result (λ _. (want : List ℕ) (more : List Step)
            → to_come self.new want more ≡ to_come self.old want (step.now ∷ more)) }
        ensures shown { IfOk result (λ _. (want : List ℕ) (more : List Step) (v : Verdict)
            (w : Witness) → IsShown self.new want more v w
            → IsShown self.old want (step.now ∷ more) v w) }
        ensures number { IfOk result (λ _. self.new.number ≡ self.old.number + 1) }
        ensures size { self.new.size ≡ self.old.size }
        ensures refused { OnErr result (self.new ≡ self.old) }
    {
        self.feed(alloc, view_of(step))
    }

    /// Takes a Send of these clocks as the next step, as [`StepChecker::step`] takes it.
    pub fn send(&mut self, alloc: Global, clocks: &[u8]) -> Result<(), CheckFault>
        requires { self.old.number < 2 ^ 64 - 1 }
        ensures fed { IfOk result (λ _. (want : List ℕ) (more : List Step)
            → to_come self.new want more ≡ to_come self.old want (Send clocks.now ∷ more)) }
        ensures shown { IfOk result (λ _. (want : List ℕ) (more : List Step) (v : Verdict)
            (w : Witness) → IsShown self.new want more v w
            → IsShown self.old want (Send clocks.now ∷ more) v w) }
        ensures number { IfOk result (λ _. self.new.number ≡ self.old.number + 1) }
        ensures size { self.new.size ≡ self.old.size }
        ensures refused { OnErr result (self.new ≡ self.old) }
    {
        self.feed(alloc, StepView::Send(clocks))
    }

    /// Takes a Poll of these clocks as the next step, as [`StepChecker::step`] takes it.
    pub fn poll(&mut self, alloc: Global, clocks: &[u8]) -> Result<(), CheckFault>
        requires { self.old.number < 2 ^ 64 - 1 }
        ensures fed { IfOk result (λ _. (want : List ℕ) (more : List Step)
            → to_come self.new want more ≡ to_come self.old want (Poll clocks.now ∷ more)) }
        ensures shown { IfOk result (λ _. (want : List ℕ) (more : List Step) (v : Verdict)
            (w : Witness) → IsShown self.new want more v w
            → IsShown self.old want (Poll clocks.now ∷ more) v w) }
        ensures number { IfOk result (λ _. self.new.number ≡ self.old.number + 1) }
        ensures size { self.new.size ≡ self.old.size }
        ensures refused { OnErr result (self.new ≡ self.old) }
    {
        self.feed(alloc, StepView::Poll(clocks))
    }

    /// Takes a Verify of these clocks and bytes as the next step, as [`StepChecker::step`] takes
    /// it.
    pub fn verify(&mut self, alloc: Global, clocks: &[u8], expect: &[u8]) -> Result<(), CheckFault>
        requires { self.old.number < 2 ^ 64 - 1 }
        ensures fed { IfOk result (λ _. (want : List ℕ) (more : List Step)
            → to_come self.new want more
            ≡ to_come self.old want (Verify clocks.now expect.now ∷ more)) }
        ensures shown { IfOk result (λ _. (want : List ℕ) (more : List Step) (v : Verdict)
            (w : Witness) → IsShown self.new want more v w
            → IsShown self.old want (Verify clocks.now expect.now ∷ more) v w) }
        ensures number { IfOk result (λ _. self.new.number ≡ self.old.number + 1) }
        ensures size { self.new.size ≡ self.old.size }
        ensures refused { OnErr result (self.new ≡ self.old) }
    {
        self.feed(alloc, StepView::Verify(clocks, expect))
    }

    /// Takes the next step.
    fn feed(&mut self, alloc: Global, step: StepView<'_>) -> Result<(), CheckFault>
        requires { self.old.number < 2 ^ 64 - 1 }
        ensures fed { IfOk result (λ _. (want : List ℕ) (more : List Step)
            → to_come self.new want more ≡ to_come self.old want (step_of step.entry ∷ more)) }
        ensures shown { IfOk result (λ _. (want : List ℕ) (more : List Step) (v : Verdict)
            (w : Witness) → IsShown self.new want more v w
            → IsShown self.old want (step_of step.entry ∷ more) v w) }
        ensures number { IfOk result (λ _. self.new.number ≡ self.old.number + 1) }
        ensures size { self.new.size ≡ self.old.size }
        ensures refused { OnErr result (self.new ≡ self.old) }
    {
        if self.stopped.is_some() {
            self.number += 1;
            return Ok(());
        }
        let answer = self.chips.step(alloc, step, &mut self.page)?;
        self.stopped = verdict_at(self.number, answer);
        self.reads = reads_after(self.reads, step, answer);
        self.number += 1;
        Ok(())
    }

    /// The verdict if no step follows, where the chips are to hold `want`.
    pub fn verdict(&self, want: &[u8]) -> Verdict
        requires { length want.now ≡ self.now.size }
        ensures { result ≡ to_come self.now want.now [] }
    {
        match self.stopped {
            Some(verdict) => verdict,
            None => self.chips.verdict(self.number, want),
        }
    }

    /// A chip that shows that verdict, where it is a no.
    pub fn witness(&self, want: &[u8]) -> Witness
        requires { length want.now ≡ self.now.size }
        ensures { (step : ℕ) (why : Why) → to_come self.now want.now [] ≡ No step why
            → IsShown self.now want.now [] (No step why) result }
    {
        let page = match self.stopped {
            Some(_) => self.page,
            None => self.chips.page(self.number, want),
        };
        Witness {
            reads: self.reads,
            page,
        }
    }

    /// What all chips are left with, if no step follows and each is then settled with the same;
    /// else none. It asks for no memory: its array is moved out.
    pub fn left(self) -> Option<Vec<u8>>
        ensures { IfSome result (λ left. (length left.items ≡ self.entry.size)
            × (to_come self.entry left.items [] ≡ Yes)) }
    {
        if self.stopped.is_some() {
            return None;
        }
        match self.verdict(self.chips.array()) {
            Verdict::Yes => Some(self.chips.into_array()),
            Verdict::No { .. } => None,
        }
    }
}

/// The verdict that the answer to a step of this number brings, if one.
fn verdict_at(step: u64, answer: Result<(), Wrong>) -> Option<Verdict>
    ensures { result ≡ verdict_at step answer }
{
    match answer {
        Ok(()) => None,
        Err(why) => {
            let why = Why::Wrong(why);
            Some(Verdict::No { step, why })
        }
    }
}

/// How many status reads were sent in a row after a step that was answered so: one that goes wrong
/// isn't counted.
fn reads_after(reads: u64, step: StepView<'_>, answer: Result<(), Wrong>) -> u64
    requires { reads < 2 ^ 64 - 1 }
    ensures { result ≡ reads_after reads (step_of step.entry) answer }
{
    match answer {
        Ok(()) => in_a_row(reads, step),
        Err(_) => reads,
    }
}

/// Whether the steps, from anybody, do the task on every chip of a meaning and a start: each page,
/// all busy times, each latch. Contents begin at address 0. No chip is run.
///
/// `No` names the first step, counted from 0, where some chip goes wrong; the number of steps at
/// the end. `Memory` where a growth is refused.
pub fn check(
    alloc: Global,
    steps: &[Step],
    meaning: &Meaning,
    start: &Start,
    have: &[u8],
    want: &[u8],
) -> Result<Verdict, CheckFault>
    requires have { length have.now ≡ meaning.now.size }
    requires want { length want.now ≡ meaning.now.size }
    requires mode { IsPossible meaning.now start.now }
    ensures worst { IfOk result
        (λ verdict. IsWorst
        (trial meaning.now start.now have.now want.now steps.now) verdict) }
    ensures yes { IfOk result (λ verdict. (verdict ≡ Yes)
        ↔ DoesTaskOnEvery meaning.now start.now have.now want.now steps.now) }
{
    let array = Vec::from_slice(alloc, have)?;
    let mut checker = StepChecker::new(alloc, meaning, *start, array);
    for step in steps {
        checker.step(alloc, step)?;
    }
    Ok(checker.verdict(want))
}

/// What [`check`] returns and, where that is a no, a chip that shows it: a run of the steps on that
/// chip, from `have` on, goes wrong just at that step and so; at the end, where no step does, it
/// isn't settled, or holds another byte there.
pub fn check_shown(
    alloc: Global,
    steps: &[Step],
    meaning: &Meaning,
    start: &Start,
    have: &[u8],
    want: &[u8],
) -> Result<(Verdict, Witness), CheckFault>
    requires have { length have.now ≡ meaning.now.size }
    requires want { length want.now ≡ meaning.now.size }
    requires mode { IsPossible meaning.now start.now }
    ensures worst { IfOk result
        (λ answer. IsWorst
        (trial meaning.now start.now have.now want.now steps.now) answer.0) }
    ensures shown { IfOk result (λ answer. (step : ℕ) (why : Why) → answer.0 ≡ No step why → (n : ℕ)
        → answer.1.reads < n
        → Witnesses (trial meaning.now start.now have.now want.now steps.now) step why
        (even n (step == length steps.now) answer.1.page)) }
{
    let array = Vec::from_slice(alloc, have)?;
    let mut checker = StepChecker::new(alloc, meaning, *start, array);
    for step in steps {
        checker.step(alloc, step)?;
    }
    let verdict = checker.verdict(want);
    let witness = checker.witness(want);
    Ok((verdict, witness))
}
