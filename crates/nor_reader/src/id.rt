//! The identification of the chip behind a device.

ghost use Rattle.nor_serprog.specs.Exchange.{CountsReads, CountsWrites};
ghost use Rattle.nor_reader.specs.Id.{Identifies};
ghost use Rattle.nor_base.specs.Wire.{wire};

use nor_base::{ByteIn, ByteOut};
use nor_serprog::{Fault, operate};

/// The instruction that reads it.
const READ_ID: u8 = 0x9F;

/// Reads the identification of the chip behind a device (9Fh): the manufacturer's byte and two of
/// the device.
///
/// An error where the exchange ended early, as of [`operate`].
pub fn read_id<R: ByteIn, W: ByteOut>(from: &mut R, to: &mut W) -> Result<[u8; 3], Fault>
    ensures identifies { Identifies (wire (W.held to.old) (R.ahead from.old))
        (wire (W.held to.new) (R.ahead from.new)) result }
    ensures counts { CountsReads (R.count from.old) (R.count from.new) result
        × CountsWrites (W.count to.old) (W.count to.new) result }
{
    let mut id = [0; 3];
    operate(from, to, &[READ_ID], &mut id)?;
    Ok(id)
}
