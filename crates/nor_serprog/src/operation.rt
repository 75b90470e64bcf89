//! One SPI operation of a device.

ghost use Rattle.std.specs.Prelude.{◌≡◌, ◌<◌, ◌^◌, length};
ghost use Rattle.nor_serprog.specs.Protocol.{head, request};
ghost use Rattle.nor_serprog.specs.declared.fault.Fault.TheVariants.{Read, Write};
ghost use Rattle.nor_serprog.specs.Exchange.{Answers, Asks, CountsReads, CountsWrites, Knows};
ghost use Rattle.nor_serprog.specs.Follow.{CountsReason};
ghost use Rattle.nor_base.specs.Wire.{wire};

use crate::exchange::{answered, ask};
use crate::fault::{Fault, Reason};
use crate::put::put_command;
use nor_base::{ByteIn, ByteOut};

/// The command of an SPI operation.
const O_SPIOP: u8 = 0x13;

/// Has the device send bytes and then take bytes, under one chip select (O_SPIOP, 13h).
///
/// `Write` where the writer failed; `Nak` and `Differs` where the first byte that came was NAK, or
/// neither NAK nor ACK; `Silent` and `Read` where the reader ended or failed early. Only after
/// `Nak` it is known where in its answers the device is.
pub fn operate<R: ByteIn, W: ByteOut>(
    from: &mut R,
    to: &mut W,
    sent: &[u8],
    got: &mut [u8],
) -> Result<(), Fault>
    requires sent { length sent.now < 2 ^ 24 }
    requires asked { length got.old < 2 ^ 24 }
    ensures asked { Asks (wire (W.held to.old) (R.ahead from.old))
        (wire (W.held to.new) (R.ahead from.new))
        result
        (request sent.now (length got.old))
        (Answers (R.ahead from.old) (R.ahead from.new) result got.new) }
    ensures counts { CountsReads (R.count from.old) (R.count from.new) result
        × CountsWrites (W.count to.old) (W.count to.new) result }
{
    let head = head(sent.len() as u32, got.len() as u32);
    ask(from, to, &[&head, sent], got)
}

/// The same where the bytes are known that are to come: they are taken by a buffer on the stack,
/// and compared.
///
/// `Differs` where as many came, but not the same: the place of the first that is another, counted
/// from 0, and what came there. `Exchange` as [`operate`].
pub fn operate_with<R: ByteIn, W: ByteOut>(
    from: &mut R,
    to: &mut W,
    sent: &[u8],
    want: &[u8],
) -> Result<(), Reason>
    requires sent { length sent.now < 2 ^ 24 }
    requires asked { length want.now < 2 ^ 24 }
    ensures known { Knows (wire (W.held to.old) (R.ahead from.old))
        (wire (W.held to.new) (R.ahead from.new))
        result
        (request sent.now (length want.now)) want.now }
    ensures counts { CountsReason Read (R.count from.old) (R.count from.new) result
        × CountsReason Write (W.count to.old) (W.count to.new) result }
{
    let head = head(sent.len() as u32, want.len() as u32);
    put_command(to, &[&head, sent]).map_err(|_| Fault::Write)?;
    answered(from, want)
}

/// The command, and how many bytes go out and come in, lowest byte first.
#[tactic(auto, unfolding(crate::specs::Protocol::head))]
pub(crate) fn head(sent: u32, asked: u32) -> [u8; 7]
    requires sent { sent < 2 ^ 24 }
    requires asked { asked < 2 ^ 24 }
    ensures { result ≡ head sent asked }
{
    let [sent0, sent1, sent2, _] = sent.to_le_bytes();
    let [asked0, asked1, asked2, _] = asked.to_le_bytes();
    [O_SPIOP, sent0, sent1, sent2, asked0, asked1, asked2]
}
