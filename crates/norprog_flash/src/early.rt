//! What shows of a job before its chip is read.

ghost use Rattle.std.specs.Prelude.{◌≡◌, IfOk, IfErr};
ghost use Rattle.nor_job.specs.Causes.{AreNamed};
ghost use Rattle.norprog_flash.specs.Early.{file_tables, is_known, is_unnamed, BreaksEarly};
ghost use Rattle.norprog_flash.specs.Early.{IsSoundEarly, MeetsEarly, RefusesEarly};

use crate::blank::blank_image;
use crate::job::{Job, inputs_for};
use crate::looked::look;
use nor_job::{BuildFault, Inputs, chip_of};
use norprog_common::{ImageRules, Refusal, refuse_image, refuse_partial};
use norprog_read::Known;
use std::alloc::Global;

/// A layout of which no region is named.
const UNNAMED: BuildFault = BuildFault::Contradiction(5);

/// Refuses a job for the first fault that shows before its chip is read.
pub fn look_at(alloc: Global, job: &Job<'_>) -> Result<(), Refusal>
    ensures sound { IfOk result (λ _. IsSoundEarly job.now) }
    ensures refused { IfErr result (RefusesEarly job.now) }
{
    if is_unnamed(job) {
        return Err(Refusal::Build(UNNAMED));
    }
    let (known, tables) = known_tables(job);
    let image = blank_image(alloc, job.blank, 0)?;
    let inputs = inputs_for(job, tables, &image);
    match look(alloc, &inputs, known) {
        Ok(()) => refuse_early(alloc, job.rules, &inputs, known),
        Err(why) => Err(Refusal::Build(why)),
    }
}

/// Whether there is a layout, and none of its regions is named.
fn is_unnamed(job: &Job<'_>) -> bool
    ensures { result ≡ is_unnamed job.now }
{
    job.layout.is_some() && job.regions.is_empty()
}

/// Refuses inputs whose image breaks a rule, as far as that shows before the chip is read: with a
/// chip that isn't known only where a region isn't full.
fn refuse_early(
    alloc: Global,
    rules: ImageRules,
    inputs: &Inputs<'_>,
    known: bool,
) -> Result<(), Refusal>
    requires { AreNamed inputs.now }
    ensures meets { IfOk result (λ _. MeetsEarly rules known inputs.now) }
    ensures breaks { IfErr result (BreaksEarly rules known inputs.now) }
{
    if !known {
        return refuse_partial(alloc, rules.full, inputs);
    }
    match chip_of(inputs) {
        Ok((meaning, _)) => refuse_image(alloc, rules, inputs, u64::from(meaning.size)),
        Err(why) => Err(Refusal::Build(why)),
    }
}

/// Whether the chip is known before it is read, and the tables of its file.
fn known_tables<'a>(job: &Job<'a>) -> (bool, &'a [u8])
    ensures known { result.0 ≡ is_known job.now.ask.known }
    ensures tables { result.1.now ≡ file_tables job.now.ask.known }
{
    match job.ask.known {
        Known::Own => (false, &[]),
        Known::Tables(file) => (true, file),
        Known::Uniform(_) | Known::Sheet(_) => (true, &[]),
    }
}
