//! The pins of the chip behind a device.

ghost use Rattle.std.specs.Prelude.{[]};
ghost use Rattle.nor_serprog.specs.Exchange.{Answers, Asks, CountsReads, CountsWrites};
ghost use Rattle.nor_serprog.specs.Greeting.{release_bytes};
ghost use Rattle.nor_base.specs.Wire.{wire};

use crate::exchange::ask;
use crate::fault::Fault;
use nor_base::{ByteIn, ByteOut};

/// The command that lets the pins go (S_PIN_STATE, 15h 00h).
const RELEASE: [u8; 2] = [0x15, 0x00];

/// Has the device drive the pins of the chip no more (S_PIN_STATE, 15h 00h), so that its board has
/// the chip to itself.
///
/// `Write` where the writer failed; `Nak` and `Differs` where NAK came, or another byte; `Silent`
/// and `Read` where the reader ended or failed before one came.
pub fn release<R: ByteIn, W: ByteOut>(from: &mut R, to: &mut W) -> Result<(), Fault>
    ensures asked { Asks (wire (W.held to.old) (R.ahead from.old))
        (wire (W.held to.new) (R.ahead from.new))
        result
        release_bytes (Answers (R.ahead from.old) (R.ahead from.new) result []) }
    ensures counts { CountsReads (R.count from.old) (R.count from.new) result
        × CountsWrites (W.count to.old) (W.count to.new) result }
{
    ask(from, to, &[&RELEASE], &mut [])
}
