//! All chips, of each page that may be.

ghost use Rattle.std.specs.Prelude.{◌≡◌, ℕ, ◌∷◌, [], true, length, map, IfOk, OnErr};
ghost use Rattle.nor_base.specs.Chip.{page_sizes};
ghost use Rattle.nor_check.specs.Chips.{one_like, last_settled};
ghost use Rattle.nor_check.specs.Outcome.{at_end};
ghost use Rattle.nor_check.specs.Order.{earlier};
ghost use Rattle.nor_check.specs.Pages.{others, with_page, begun_each, StepsEach, IsToldBy};
ghost use Rattle.nor_check.specs.Pages.{IsJudgedBy, worst_of, HaveSize, first_array};
ghost use Rattle.nor_check.specs.View.{step_of};

use crate::chips::AllChips;
use crate::verdict::{Verdict, earlier, first_of, page_of, told_of};
use crate::view::StepView;
use nor_base::{Meaning, Start, Wrong};
use std::alloc::{AllocError, Global};
use std::marker::Model;

/// The sizes that a page may have.
const PAGES: [u32; 9] = [16, 32, 64, 128, 256, 512, 1024, 2048, 4096];

/// All chips of a meaning and a start after some steps, of each page that may be.
///
/// A page tells nothing until a program leaves it. So where it is only known to be so large or
/// larger, one array serves all pages until a program leaves the least, and then each page has its
/// own.
#[derive(Drop)]
pub(crate) struct AllPages<'a> {
    /// Those of the meaning's own page; while they are alike they stand for all.
    own: AllChips<'a>,
    /// Else those of each other page.
    others: Vec<AllChips<'a>>,
    alike: bool,
}

impl<'a> Model for AllPages<'a> {
    ghost use Rattle.std.specs.Prelude.{◌≡◌, List};
    ghost use Rattle.nor_check.specs.Chips.{Together};

    ghost Value = { List Together };

    ghost use Rattle.nor_check.specs.Pages.{page_by_page};

    ghost view = { λ p. page_by_page p.alike p.own p.others.items };

    ghost invariant = { λ p. p.own.kind.page ≡ p.own.kind.meaning.page };
}

impl<'a> AllPages<'a> {
    /// All ready chips with this content. It asks for no memory.
    pub(crate) fn new(
        alloc: Global,
        meaning: &'a Meaning,
        start: Start,
        content: Vec<u8>,
    ) -> AllPages<'a>
        requires { length content.items ≡ meaning.now.size }
        ensures { result ≡ begun_each meaning.now start content.items }
    {
        AllPages {
            own: AllChips::new(meaning, start, content),
            others: Vec::new(alloc),
            alike: meaning.open_page,
        }
    }

    /// One step of all of them; why some don't take it, by the first cause. It asks for memory just
    /// where it is the first that tells chips of different pages apart; where that is refused,
    /// nothing was done. Where some don't take it, `told` is then the page of such chips.
    pub(crate) fn step(
        &mut self,
        alloc: Global,
        step: StepView<'_>,
        told: &mut u32,
    ) -> Result<Result<(), Wrong>, AllocError>
        ensures step { IfOk result (λ answer.
            StepsEach self.old self.new answer (step_of step.entry)) }
        ensures told { IfOk result (λ answer.
            IsToldBy self.old answer (step_of step.entry) told.new) }
        ensures refused { OnErr result (self.new ≡ self.old) }
        ensures untold { OnErr result (told.new ≡ told.old) }
    {
        if !self.alike {
            return Ok(step_apart(&mut self.own, &mut self.others, step, told));
        }
        if !self.own.tells_apart(step) {
            *told = self.own.page();
            return Ok(self.own.step(step));
        }
        let others = on_other_pages(alloc, &self.own)?;
        self.others = others;
        self.alike = false;
        Ok(step_apart(&mut self.own, &mut self.others, step, told))
    }

    /// The verdict after so many steps, none of which went wrong on any chip.
    pub(crate) fn verdict(&self, steps: u64, target: &[u8]) -> Verdict
        requires { HaveSize (length target.now) self.now }
        ensures { result ≡ worst_of
            (λ t. at_end (one_like t.kind [] true) target.now steps (last_settled t.chips))
            self.now }
    {
        let own = self.own.verdict(steps, target);
        if self.alike {
            return own;
        }
        earliest(own, self.others.as_slice(), steps, target)
    }

    /// The array of the first of them.
    pub(crate) fn array(&self) -> &[u8]
        ensures first { result.now ≡ first_array self.now }
        ensures size { (size : ℕ) → HaveSize size self.now → length result.now ≡ size }
    {
        self.own.array()
    }

    /// That array, moved out.
    pub(crate) fn into_array(self) -> Vec<u8>
        ensures { result.items ≡ first_array self.entry }
    {
        self.own.into_array()
    }

    /// The page of chips that have this verdict.
    pub(crate) fn page(&self, steps: u64, target: &[u8]) -> u32
        requires { HaveSize (length target.now) self.now }
        ensures { IsJudgedBy
            (λ t. at_end (one_like t.kind [] true) target.now steps (last_settled t.chips)) self.now
            (worst_of (λ t. at_end (one_like t.kind [] true) target.now steps
            (last_settled t.chips)) self.now) result }
    {
        if self.alike {
            return self.own.page();
        }
        page_of_earliest(&self.own, self.others.as_slice(), steps, target)
    }
}

/// The same chips with each other page that may be.
fn on_other_pages<'a>(alloc: Global, chips: &AllChips<'a>) -> Result<Vec<AllChips<'a>>, AllocError>
    ensures { IfOk result
        (λ all. all.items ≡ map (with_page chips.now) (others chips.now.kind.meaning page_sizes)) }
{
    let mut all = Vec::new(alloc);
    for page in &PAGES {
        if chips.has_other_page(*page) {
            all.push(chips.with_page(alloc, *page)?)?;
        }
    }
    Ok(all)
}

/// One step of the chips of the meaning's own page and those of each other.
fn step_apart<'a>(
    own: &mut AllChips<'a>,
    others: &mut Vec<AllChips<'a>>,
    step: StepView<'_>,
    told: &mut u32,
) -> Result<(), Wrong>
    ensures told { IsToldBy (own.old ∷ others.old.items) result (step_of step.entry) told.new }
    ensures step { StepsEach (own.old ∷ others.old.items) (own.new ∷ others.new.items) result
        (step_of step.entry) }
    ensures stays { own.new.kind ≡ own.old.kind }
{
    *told = own.page();
    let mut answer = own.step(step);
    for chips in others.iter_mut() {
        let next = chips.step(step);
        let page = chips.page();
        *told = told_of(answer, next, *told, page);
        answer = first_of(answer, next);
    }
    answer
}

/// The earliest of a verdict and those on some chips at the end.
fn earliest(own: Verdict, all: &[AllChips<'_>], steps: u64, target: &[u8]) -> Verdict
    requires { HaveSize (length target.now) all.now }
    ensures { result
        ≡ earlier own (worst_of
        (λ t. at_end (one_like t.kind [] true) target.now steps (last_settled t.chips))
        all.now) }
{
    let mut worst = own;
    for chips in all {
        worst = earlier(worst, chips.verdict(steps, target));
    }
    worst
}

/// The page of chips that have the earliest verdict at the end.
fn page_of_earliest(own: &AllChips<'_>, all: &[AllChips<'_>], steps: u64, target: &[u8]) -> u32
    requires { HaveSize (length target.now) (own.now ∷ all.now) }
    ensures { IsJudgedBy
        (λ t. at_end (one_like t.kind [] true) target.now steps (last_settled t.chips))
        (own.now ∷ all.now)
        (worst_of (λ t. at_end (one_like t.kind [] true) target.now steps (last_settled t.chips))
        (own.now ∷ all.now)) result }
{
    let mut worst = own.verdict(steps, target);
    let mut page = own.page();
    for chips in all {
        let verdict = chips.verdict(steps, target);
        let next = chips.page();
        page = page_of(worst, verdict, page, next);
        worst = earlier(worst, verdict);
    }
    page
}
