//! What a chip holds, as its reader gives it.

ghost use Rattle.std.specs.Prelude.{◌≡◌, length, IfOk, IfErr};
ghost use Rattle.nor_base.specs.Device.{Gives};
ghost use Rattle.norprog_common.specs.Content.{StopsReading, CountsReader};

use crate::faults::Refusal;
use nor_base::ByteIn;
use nor_job::fill_window;
use std::alloc::Global;

/// The next `len` bytes of the reader.
///
/// `ContentShort` where it ends before, `Read` where it fails, `Memory` where there is no room for
/// them.
pub fn read_content<R: ByteIn>(alloc: Global, content: &mut R, len: u32) -> Result<Vec<u8>, Refusal>
    ensures length { IfOk result (λ bytes. length bytes.items ≡ len) }
    ensures given { IfOk result
        (λ bytes. Gives (R.ahead content.old) bytes.items (R.ahead content.new)) }
    ensures stopped { IfErr result (StopsReading len (R.ahead content.old) (R.ahead content.new)) }
    ensures count { CountsReader (R.count content.old) (R.count content.new) result }
{
    let mut bytes = vec![in alloc; 0u8; len as usize]?;
    match fill_window(content, bytes.as_mut_slice()) {
        Ok(()) => Ok(bytes),
        Err(why) => Err(Refusal::Build(why)),
    }
}
