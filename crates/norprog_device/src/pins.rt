//! The pins of the chip behind a device.

ghost use Rattle.nor_base.specs.Wire.{wire};
ghost use Rattle.norprog_device.specs.Opened.{LetsGo};

use nor_base::{ByteIn, ByteOut};
use nor_serprog::release;

/// Has a device drive the pins of its chip no more, where it does, as [`nor_serprog::Limits`] says;
/// what it answers changes nothing.
pub fn let_go<R: ByteIn, W: ByteOut>(from: &mut R, to: &mut W, pins: bool)
    ensures goes { LetsGo (wire (W.held to.old) (R.ahead from.old))
        (wire (W.held to.new) (R.ahead from.new)) pins }
{
    if pins {
        let _ = release(from, to);
    }
}
