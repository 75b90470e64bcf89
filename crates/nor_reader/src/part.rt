//! A part of what the chip behind a device holds.

ghost use Rattle.std.specs.Prelude.{◌<◌, ◌+◌, ◌^◌, length};
ghost use Rattle.nor_base.specs.Wire.{wire};
ghost use Rattle.nor_reader.specs.Part.{ReadsPart};
ghost use Rattle.nor_loop.specs.Reads.{chunk};

use crate::by::{ReadBy, enter_of, leave_of};
use crate::difference::Mismatch;
use crate::piece::compare_piece;
use crate::switch::{ENTER, LEAVE, switch_mode};
use nor_base::{ByteIn, ByteOut};

/// Has the device read as many bytes as a part has, from an address on, at once, and compares them
/// with it. It takes no memory.
///
/// `Differs` names the lowest address whose byte is another; four-byte mode was left where it was
/// entered. `Exchange` where an exchange ended early, after which nothing was sent.
pub fn compare_part<R: ByteIn, W: ByteOut>(
    from: &mut R,
    to: &mut W,
    by: ReadBy,
    address: u32,
    part: &[u8],
) -> Result<(), Mismatch>
    requires size { length part.now < 2 ^ 24 }
    requires end { address + length part.now < 2 ^ 32 + 1 }
    ensures { ReadsPart by (chunk address part.now) (wire (W.held to.old) (R.ahead from.old))
        (wire (W.held to.new) (R.ahead from.new)) result }
{
    switch_mode(from, to, enter_of(by), ENTER)?;
    match compare_piece(from, to, by, address, part) {
        Ok(()) => {
            switch_mode(from, to, leave_of(by), LEAVE)?;
            Ok(())
        }
        Err(Mismatch::Exchange(why)) => Err(Mismatch::Exchange(why)),
        Err(Mismatch::Differs(difference)) => {
            switch_mode(from, to, leave_of(by), LEAVE)?;
            Err(Mismatch::Differs(difference))
        }
    }
}
