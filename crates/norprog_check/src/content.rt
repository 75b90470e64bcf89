//! What a job's chip holds, and what it must hold.

ghost use Rattle.std.specs.Prelude.{IfOk, IfErr};
ghost use Rattle.nor_job.specs.Written.{CountsReader as CountsRead};
ghost use Rattle.norprog_check.specs.Content.{IsRead, StopsRead};

use nor_base::ByteIn;
use nor_job::{BuildFault, Job, fill_window};
use nor_target::fill;
use std::alloc::Global;

/// What the chip of a job holds, by the reader, and what it must hold.
///
/// `ContentShort` where the reader ends before the chip's size, `Read` where it fails, `Memory`
/// where a growth is refused, before anything is read.
pub(crate) fn read_content<R: ByteIn>(
    alloc: Global,
    job: &Job,
    content: &mut R,
) -> Result<(Vec<u8>, Vec<u8>), BuildFault>
    ensures read { IfOk result
        (λ held. IsRead job.now (R.ahead content.old) (R.ahead content.new) held.0.items
        held.1.items) }
    ensures stopped { IfErr result
        (StopsRead job.now.meaning.size (R.ahead content.old) (R.ahead content.new)) }
    ensures count { CountsRead (R.count content.old) (R.count content.new) result }
{
    let size = job.meaning.size as usize;
    let mut have = vec![in alloc; 0; size]?;
    let mut want = vec![in alloc; 0; size]?;
    fill_window(content, have.as_mut_slice())?;
    fill(
        &job.image,
        job.base,
        &job.chosen,
        0,
        have.as_slice(),
        want.as_mut_slice(),
    );
    Ok((have, want))
}
