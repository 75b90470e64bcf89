//! What shows of a job before its chip is read.

ghost use Rattle.std.specs.Prelude.{◌≡◌, IfOk, IfErr};
ghost use Rattle.norprog_flash.specs.Looked.{shows_early, IsSoundEarly, RefusesEarly};

use nor_job::{BuildFault, Inputs, job_of};
use std::alloc::Global;

/// Refuses a job for the first fault that its inputs have whatever the chip holds, in the order of
/// [`nor_job::job_of`]: `Contradiction`, `Hex` and `Layout`; `Sfdp`, `Sheet`, `Status` and
/// `ModeImpossible` where the chip is known, which else isn't looked at; `Memory`.
pub fn look(alloc: Global, inputs: &Inputs<'_>, known: bool) -> Result<(), BuildFault>
    ensures sound { IfOk result (λ _. IsSoundEarly known inputs.now) }
    ensures refused { IfErr result (RefusesEarly known inputs.now) }
{
    // no chip has this length: a job that goes as far as that has none of these faults
    match job_of(alloc, inputs, 0) {
        Err(why) if shows_early(known, why) => Err(why),
        _ => Ok(()),
    }
}

/// Whether a fault shows without the content.
fn shows_early(known: bool, why: BuildFault) -> bool
    ensures { result ≡ shows_early known why }
{
    match why {
        BuildFault::Sfdp(_)
        | BuildFault::Sheet(_)
        | BuildFault::Status(_)
        | BuildFault::ModeImpossible => known,
        BuildFault::ContentSize => false,
        _ => true,
    }
}
