//! What a chip holds, as its reader gives it.

ghost use Rattle.nor_job.specs.Filled.{FillsWindow};
ghost use Rattle.nor_job.specs.Written.{CountsReader};

use crate::fault::BuildFault;
use nor_base::{ByteIn, fill_from};

/// Fills an array with the content's next bytes.
///
/// `ContentShort` where the reader ends before the array does, `Read` where it fails. It takes no
/// memory.
pub fn fill_window<R: ByteIn>(content: &mut R, window: &mut [u8]) -> Result<(), BuildFault>
    ensures bytes { FillsWindow (R.ahead content.old) (R.ahead content.new) result window.new }
    ensures count { CountsReader (R.count content.old) (R.count content.new) result }
{
    match fill_from(content, window) {
        Ok(given) if given == window.len() => Ok(()),
        Ok(_) => Err(BuildFault::ContentShort),
        Err(_) => Err(BuildFault::Read),
    }
}
