//! Which part of a chip is read.

ghost use Rattle.std.specs.Prelude.{◌≡◌, ◌≤◌, ◌^◌, ℕ, List, IfOk, IfErr, MatchOption};
ghost use Rattle.nor_hex.specs.Image.{Pairs};
ghost use Rattle.nor_job.specs.Causes.{HasImage, HasRegions, RefusesInputs};
ghost use Rattle.nor_layout.specs.Chosen.{has, is_chosen};
ghost use Rattle.nor_layout.specs.Region.{Region};
ghost use Rattle.norprog_flash.specs.Near.{Gets, GetsNone, IsNear, IsNextPiece};
ghost use Rattle.norprog_flash.specs.Near.{LiesIn, RefusesNear, Spans};

use crate::job::{Job, goes_near, inputs_for};
use nor_job::{BuildFault, Inputs, contradiction, image_of};
use nor_target::{Chosen, Image};
use norprog_common::Refusal;
use norprog_read::Span;
use std::alloc::Global;

/// Near which addresses a job's chip is read; None where all of it is. The refusals are those of
/// [`near_of`].
pub(crate) fn near_for(alloc: Global, job: &Job<'_>) -> Result<Option<Span>, Refusal>
    ensures near { IfOk result (IsNear job.now) }
    ensures refused { IfErr result (RefusesNear job.now) }
{
    if !goes_near(job) {
        return Ok(None);
    }
    let inputs = inputs_for(job, &[], &None);
    match near_of(alloc, &inputs) {
        Ok(span) => Ok(Some(span)),
        Err(why) => Err(Refusal::Build(why)),
    }
}

/// The addresses from the first that gets a byte of the inputs' image up to the one after the last;
/// 0 twice where none does. Memory is taken for the image and the layout.
///
/// The refusals are those of [`nor_job::job_of`] that come before the chip.
fn near_of(alloc: Global, inputs: &Inputs<'_>) -> Result<Span, BuildFault>
    ensures spans { IfOk result (Spans inputs.now) }
    ensures refused { IfErr result (λ why. (len : ℕ) → RefusesInputs inputs.now len why) }
{
    if let Some(number) = contradiction(inputs) {
        return Err(BuildFault::Contradiction(number));
    }
    let image = image_of(alloc, inputs)?;
    let chosen = choose(alloc, inputs)?;
    Ok(span_of(&image, inputs.base, &chosen))
}

/// The chosen addresses; without a layout all are.
fn choose(alloc: Global, inputs: &Inputs<'_>) -> Result<Chosen, BuildFault>
    requires { (image : Pairs) × HasImage inputs.now image }
    ensures chosen { IfOk result (λ chosen. (image : Pairs) (regions : List Region)
        → HasRegions inputs.now image regions
        → (a : ℕ) → has chosen a ≡ is_chosen regions inputs.now.regions a) }
    ensures refused { IfErr result (λ why. (len : ℕ) → RefusesInputs inputs.now len why) }
{
    let Some(text) = inputs.layout else {
        return Ok(Chosen::whole());
    };
    let layout = nor_layout::read(alloc, text)?;
    Ok(layout.choose(alloc, inputs.regions)?)
}

/// The addresses from the first chosen one that gets a byte up to the one after the last; 0 twice
/// where none does.
fn span_of(image: &Image, base: u32, chosen: &Chosen) -> Span
    ensures each { (a : ℕ) → Gets image.now base (has chosen.now) a → LiesIn result a }
{
    let mut low = usize::MAX;
    let mut high = 0;
    let mut done = 0;
    while let Some((begin, end)) = next_piece(image, base, chosen, done) {
        if begin < end {
            low = low.min(begin);
            high = end;
        }
        done = end;
    }
    Span {
        low: low.min(high),
        high,
    }
}

/// Addresses from `done` on that get a byte each, as the first and the one after the last, before
/// which no other does. Where the two are the same there are none, and the search goes on there.
fn next_piece(image: &Image, base: u32, chosen: &Chosen, done: usize) -> Option<(usize, usize)>
    requires { done ≤ 2 ^ 32 }
    ensures { MatchOption result (GetsNone (Gets image.now base (has chosen.now)) done)
        (IsNextPiece (Gets image.now base (has chosen.now)) done) }
{
    let from = u32::try_from(done as u64).ok()?;
    let (first, last) = chosen.next_run(from)?;
    let start = u32::try_from(u64::from(base) + u64::from(first)).ok()?;
    let (at, run) = image.run_from(start)?;
    let begin = (at - base) as usize;
    let end = (begin + run.len()).min(last as usize + 1);
    Some((begin, end.max(begin)))
}
