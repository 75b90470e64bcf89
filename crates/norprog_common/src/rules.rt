//! What the image of a job has to give, and where it has to lie.

ghost use Rattle.std.specs.Prelude.{◌≡◌, ◌≢◌, ◌-◌, ◌^◌, ℕ, true, false, length, Some};
ghost use Rattle.std.specs.Prelude.{None, IfOk, IfErr, MatchOption};
ghost use Rattle.nor_base.specs.Array.{is_filled};
ghost use Rattle.nor_hex.specs.Image.{byte_at};
ghost use Rattle.nor_job.specs.Job.{IsJob};
ghost use Rattle.nor_job.specs.Causes.{AreNamed};
ghost use Rattle.nor_target.specs.Shares.{first_empty, given_in};
ghost use Rattle.norprog_common.specs.Rules.{are_some, job_rules, lands_in, AreFilled};
ghost use Rattle.norprog_common.specs.Rules.{BreaksRules, IsFilled, IsFirstOutside, IsGap};
ghost use Rattle.norprog_common.specs.Rules.{IsGiven, IsMissing, IsNextMissing, IsStray};
ghost use Rattle.norprog_common.specs.Rules.{LacksPart};
ghost use Rattle.norprog_common.specs.Rules.{LiesInside, MeetsRules};
ghost use Rattle.norprog_common.specs.declared.faults.Refusal.TheVariants.{Beyond, BinLength};
ghost use Rattle.norprog_common.specs.declared.faults.Refusal.TheVariants.{EmptyRegion};
ghost use Rattle.norprog_common.specs.declared.faults.Refusal.TheVariants.{Nowhere};
ghost use Rattle.norprog_common.specs.declared.faults.Stray.{Stray as StrayOf};

use crate::faults::{Gap, Length, Refusal, Stray};
use nor_hex::Image;
use nor_job::{Inputs, Job, chosen_regions as regions_of, image_of, job_of};
use nor_layout::Region;
use nor_target::{Chosen, first_empty, ignored, share_of};
use std::alloc::Global;

/// What the image of a job has to give, and where it has to lie.
#[derive(Clone, Copy)]
pub struct ImageRules {
    /// It has as many bytes as the chip.
    pub exact: bool,
    /// Each chosen region gets a byte.
    pub strict: bool,
    /// Each named region gets a byte at each of its addresses.
    pub full: bool,
    /// No byte lies off the chip.
    pub inside: bool,
    /// Some byte lies at a chosen address of the chip.
    pub lands: bool,
}

/// The rules of a job that is to be strict, and whole, and of an image that has to be as long as
/// the chip.
pub fn job_rules(strict: bool, whole: bool, exact: bool) -> ImageRules
    ensures { result ≡ job_rules strict whole exact }
{
    ImageRules {
        exact,
        strict,
        full: whole,
        inside: whole,
        lands: whole,
    }
}

/// Refuses inputs of a content of `len` bytes whose image breaks a rule; where there are rules also
/// inputs that a build refuses.
///
/// The refusals are `Build` as [`job_of`] reports it; `BinLength`; `EmptyRegion`; those of
/// [`refuse_partial`]; `Beyond`; `Nowhere`.
pub fn refuse_image(
    alloc: Global,
    rules: ImageRules,
    inputs: &Inputs<'_>,
    len: u64,
) -> Result<(), Refusal>
    ensures meets { IfOk result (λ _. MeetsRules rules inputs.now len) }
    ensures breaks { IfErr result (BreaksRules rules inputs.now len) }
{
    if !are_some(rules) {
        return Ok(());
    }
    match job_of(alloc, inputs, len) {
        Ok(job) => refuse_job(alloc, rules, inputs, len, &job),
        Err(fault) => Err(Refusal::Build(fault)),
    }
}

/// Whether there are rules.
fn are_some(rules: ImageRules) -> bool
    ensures { result ≡ are_some rules }
{
    rules.exact || rules.strict || rules.full || rules.inside || rules.lands
}

/// Refuses a job whose image breaks a rule.
fn refuse_job(
    alloc: Global,
    rules: ImageRules,
    inputs: &Inputs<'_>,
    len: u64,
    job: &Job,
) -> Result<(), Refusal>
    requires { IsJob inputs.now len job.now }
    ensures meets { IfOk result (λ _. MeetsRules rules inputs.now len) }
    ensures breaks { IfErr result (BreaksRules rules inputs.now len) }
{
    refuse_length(rules.exact, job)?;
    let regions = match regions_of(alloc, inputs, job.meaning.size) {
        Ok(regions) => regions,
        Err(_) => return Err(Refusal::MEMORY),
    };
    let chosen = regions.as_slice();
    refuse_empty(rules.strict, job, chosen)?;
    refuse_partial(alloc, rules.full, inputs)?;
    refuse_stray(rules.inside, job)?;
    refuse_landless(rules.lands, job, chosen)
}

/// Refuses a job whose image has to have as many bytes as the chip, and hasn't.
fn refuse_length(exact: bool, job: &Job) -> Result<(), Refusal>
    ensures same { IfOk result (λ _. exact ≡ true
        → length job.now.image ≡ job.now.meaning.size) }
    ensures other { IfErr result (λ why. (why ≡ BinLength (record {
      given = length job.now.image;
      wanted = job.now.meaning.size;
    }))
        × (exact ≡ true) × (length job.now.image ≢ job.now.meaning.size)) }
{
    let given = job.image.count();
    let wanted = u64::from(job.meaning.size);
    if !exact || given == wanted {
        return Ok(());
    }
    Err(Refusal::BinLength(Length { given, wanted }))
}

/// Refuses a strict job whose image gives one of these regions no byte.
fn refuse_empty(strict: bool, job: &Job, regions: &[Region<'_>]) -> Result<(), Refusal>
    ensures none { IfOk result (λ _. strict ≡ true → first_empty (byte_at job.now.image)
        job.now.base job.now.meaning.size regions.now ≡ None) }
    ensures some { IfErr result (λ why. (index : ℕ) × (why ≡ EmptyRegion index)
        × (strict ≡ true) × (first_empty (byte_at job.now.image) job.now.base
        job.now.meaning.size regions.now ≡ Some index)) }
{
    if !strict {
        return Ok(());
    }
    match first_empty(&job.image, job.base, job.meaning.size, regions) {
        None => Ok(()),
        Some(index) => Err(Refusal::EmptyRegion(index as u64)),
    }
}

/// Refuses a job whose image has to lie on the chip, and doesn't.
fn refuse_stray(inside: bool, job: &Job) -> Result<(), Refusal>
    ensures none { IfOk result (λ _. inside ≡ true
        → LiesInside job.now.image job.now.base job.now.meaning.size) }
    ensures some { IfErr result (λ why. (stray : StrayOf) × (why ≡ Beyond stray)
        × (inside ≡ true) × IsStray job.now.image job.now.base job.now.meaning.size stray) }
{
    if !inside {
        return Ok(());
    }
    match stray_of(&job.image, job.base, job.meaning.size) {
        None => Ok(()),
        Some(stray) => Err(Refusal::Beyond(stray)),
    }
}

/// What of an image lies off a chip of this size.
fn stray_of(image: &Image, base: u32, size: u32) -> Option<Stray>
    ensures { MatchOption result (LiesInside image.now base size) (IsStray image.now base size) }
{
    let first = first_outside(image, base, size)?;
    Some(Stray {
        count: ignored(image, base, &Chosen::whole(), size),
        first,
    })
}

/// The lowest address of the image that is none of a chip of this size.
fn first_outside(image: &Image, base: u32, size: u32) -> Option<u32>
    ensures { MatchOption result (LiesInside image.now base size)
        (IsFirstOutside image.now base size) }
{
    // Called for what it promises: no address is past FFFFFFFFh.
    let _ = image.iter();
    let (lowest, _) = image.run_from(0)?;
    if lowest < base {
        return Some(lowest);
    }
    let end = base.checked_add(size)?;
    let (past, _) = image.run_from(end)?;
    Some(past)
}

/// Refuses a job whose image has to give one of these regions a byte, and gives none of them any.
fn refuse_landless(lands: bool, job: &Job, regions: &[Region<'_>]) -> Result<(), Refusal>
    ensures some { IfOk result (λ _. lands ≡ true → lands_in (byte_at job.now.image)
        job.now.base job.now.meaning.size regions.now ≡ true) }
    ensures none { IfErr result (λ why. (why ≡ Nowhere) × (lands ≡ true)
        × (lands_in (byte_at job.now.image) job.now.base job.now.meaning.size regions.now
        ≡ false)) }
{
    if !lands || lands_in(&job.image, job.base, job.meaning.size, regions) {
        return Ok(());
    }
    Err(Refusal::Nowhere)
}

/// Whether the image gives some of these regions of a chip a byte.
fn lands_in(image: &Image, base: u32, size: u32, regions: &[Region<'_>]) -> bool
    ensures { result ≡ lands_in (byte_at image.now) base size regions.now }
{
    regions
        .iter()
        .any(|region| share_of(image, base, size, region).is_some())
}

/// Refuses inputs whose image has to give each address of each named region a byte, and doesn't.
/// It looks neither at the chip nor for a contradiction.
///
/// `Partial` of the first region that lacks one, with the lowest address that does; `Memory`.
pub fn refuse_partial(alloc: Global, full: bool, inputs: &Inputs<'_>) -> Result<(), Refusal>
    requires { AreNamed inputs.now }
    ensures given { IfOk result (λ _. full ≡ true → is_filled inputs.now.regions ≡ true
        → IsGiven inputs.now) }
    ensures lacks { IfErr result (λ why. (full ≡ true) × LacksPart inputs.now why) }
{
    if !full || inputs.regions.is_empty() {
        return Ok(());
    }
    let Ok(image) = image_of(alloc, inputs) else {
        return Err(Refusal::MEMORY);
    };
    let Ok(regions) = regions_of(alloc, inputs, 1) else {
        return Err(Refusal::MEMORY);
    };
    match gap_in(&image, inputs.base, regions.as_slice()) {
        None => Ok(()),
        Some(gap) => Err(Refusal::Partial(gap)),
    }
}

/// What the first of these regions lacks of an image that lacks something.
fn gap_in(image: &Image, base: u32, regions: &[Region<'_>]) -> Option<Gap>
    ensures { MatchOption result (AreFilled (byte_at image.now) base regions.now)
        (IsGap (byte_at image.now) base regions.now) }
{
    for (index, region) in regions.iter().enumerate() {
        if let Some(first) = first_missing(image, base, region) {
            return Some(Gap {
                index: index as u64,
                given: given_in(image, base, region),
                size: u64::from(region.end) + 1 - u64::from(region.start),
                first,
            });
        }
    }
    None
}

/// How many addresses of a region the image gives a byte.
fn given_in(image: &Image, base: u32, region: &Region<'_>) -> u64
    ensures { result ≡ length (given_in (byte_at image.now) base (2 ^ 32 - 1) region.now) }
{
    match share_of(image, base, u32::MAX, region) {
        Some(share) => share.count,
        None => 0,
    }
}

/// The lowest address of a region to which the image gives no byte.
fn first_missing(image: &Image, base: u32, region: &Region<'_>) -> Option<u32>
    ensures { MatchOption result (IsFilled (byte_at image.now) base region.now)
        (IsMissing (byte_at image.now) base region.now) }
{
    let at = next_missing(image, base, region.start);
    if at <= u64::from(region.end) {
        Some(at as u32)
    } else {
        None
    }
}

/// The lowest address from `start` on to which the image gives no byte.
fn next_missing(image: &Image, base: u32, start: u32) -> u64
    ensures { IsNextMissing (byte_at image.now) base start result }
{
    // Called for what it promises: no address is past FFFFFFFFh.
    let _ = image.iter();
    let Some(from) = base.checked_add(start) else {
        return u64::from(start);
    };
    match image.run_from(from) {
        Some((at, run)) if at == from => u64::from(start) + run.len() as u64,
        _ => u64::from(start),
    }
}
