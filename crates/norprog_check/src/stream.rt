//! From the bytes of inputs, content and a script that a device tells to a verdict.

ghost use Rattle.std.specs.Prelude.{◌≡◌, IfOk, IfErr};
ghost use Rattle.nor_base.specs.Device.{one_more};
ghost use Rattle.norprog_check.specs.Checked.{checking};
ghost use Rattle.norprog_check.specs.Stream.{IsFound, Unchecked, work};

use crate::content::read_content;
use crate::fault::StreamStop;
use crate::finding::Finding;
use crate::judge::judge;
use nor_base::ByteIn;
use nor_job::{Inputs, job_of};
use norprog_common::look_through;
use std::alloc::Global;

/// [`crate::check_script`] of a script that is read once, as it comes, and never held. A fault of
/// the content, which is read first, is reported only of a script that was read to its end and has
/// none.
///
/// Memory is taken for the inputs, one reader of steps and twice the chip's size. `Device` where
/// the script's reader fails.
pub fn check_stream<A: ByteIn, R: ByteIn>(
    alloc: Global,
    inputs: &Inputs<'_>,
    script: &mut A,
    content: &mut R,
    len: u64,
) -> Result<Finding, StreamStop>
    ensures found { IfOk result (IsFound (work (checking inputs.now len
        (R.ahead content.old) (R.ahead content.new))
        (A.ahead script.old) (A.ahead script.new))) }
    ensures unchecked { IfErr result (Unchecked (work (checking inputs.now len
        (R.ahead content.old) (R.ahead content.new))
        (A.ahead script.old) (A.ahead script.new))
        (A.count script.new ≡ one_more (A.count script.old))
        (R.count content.new ≡ one_more (R.count content.old))) }
{
    let job = job_of(alloc, inputs, len)?;
    match read_content(alloc, &job, content) {
        Ok((have, want)) => Ok(judge(alloc, &job, have, want.as_slice(), script)?),
        Err(fault) => {
            look_through(alloc, script)?;
            Err(StreamStop::from(fault))
        }
    }
}
