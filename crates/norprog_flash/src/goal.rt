//! What a chip must hold.

ghost use Rattle.std.specs.Prelude.{◌≡◌, ◌≤◌, ◌<◌, ◌^◌, length, count_by, IfOk, IfErr};
ghost use Rattle.nor_base.specs.Target.{is_ignored};
ghost use Rattle.nor_layout.specs.Chosen.{has};
ghost use Rattle.nor_job.specs.Filled.{target_from};
ghost use Rattle.nor_job.specs.Causes.{RefusesInputs};
ghost use Rattle.norprog_flash.specs.Work.{IsGoal};

use nor_job::{BuildFault, Inputs, Job, job_of};
use nor_target::{fill, ignored};
use std::alloc::Global;

/// What a chip must hold, and what of the image goes nowhere.
#[derive(Drop)]
pub struct Goal {
    /// The byte of each address, from 0 on.
    pub bytes: Vec<u8>,
    /// Addresses of the image.
    pub given: u64,
    /// Those of them that have no place on the chip or aren't chosen.
    pub ignored: u64,
}

/// What a chip of the inputs must hold whose bytes were these. Memory is taken for the image, the
/// layout and the bytes.
///
/// The refusals are those of [`nor_job::job_of`], `ContentSize` where there are more or fewer bytes
/// than the chip has.
pub fn goal_of(alloc: Global, inputs: &Inputs<'_>, old: &[u8]) -> Result<Goal, BuildFault>
    ensures goal { IfOk result (IsGoal inputs.now old.now) }
    ensures refused { IfErr result (RefusesInputs inputs.now (length old.now)) }
{
    let job = job_of(alloc, inputs, old.len() as u64)?;
    let mut bytes = vec![in alloc; 0u8; old.len()]?;
    fill_target(&job, old, bytes.as_mut_slice());
    let given = job.image.count();
    let ignored = count_ignored(&job);
    Ok(Goal {
        bytes,
        given,
        ignored,
    })
}

/// Fills a slice with the target of a job whose chip held these bytes.
fn fill_target(job: &Job, old: &[u8], want: &mut [u8])
    requires lengths { length old.now ≡ length want.old }
    requires few { length old.now ≤ 2 ^ 32 }
    ensures { want.new ≡ target_from job.now 0 old.now }
{
    fill(&job.image, job.base, &job.chosen, 0, old, want);
}

/// How many addresses of a job's image go nowhere.
fn count_ignored(job: &Job) -> u64
    ensures count { result ≡ count_by (λ pair.
        is_ignored job.now.base (has job.now.chosen) job.now.meaning.size pair.0) job.now.image }
    ensures small { job.now.meaning.size < 2 ^ 32 }
{
    ignored(&job.image, job.base, &job.chosen, job.meaning.size)
}
