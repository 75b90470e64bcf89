//! The test of the line to a device: whether each byte reaches it as it was sent.

ghost use Rattle.std.specs.Prelude.{◌≡◌, ◌<◌, ◌≤◌, ◌+◌, ◌-◌, ◌^◌, [], ◌∷◌, length};
ghost use Rattle.nor_serprog.specs.Exchange.{CountsReads, CountsWrites};
ghost use Rattle.nor_serprog.specs.Line.{Exchanges, SendsValues, TestsLine, all_values, end_test};
ghost use Rattle.nor_serprog.specs.Line.{ignored, lengths_test, zeros_if};
ghost use Rattle.nor_base.specs.Wire.{wire};

use crate::exchange::{ACK, NAK, exchange};
use crate::fault::{Command, Fault};
use crate::limits::Limits;
use crate::operation::head;
use nor_base::{ByteIn, ByteOut};

/// The command that does nothing.
const NOP: u8 = 0x00;

/// The instruction that reads the status: what comes after it the chip ignores.
const READ_STATUS: u8 = 0x05;

/// Shows that each byte value reaches the device as it was sent: none is dropped, doubled, or
/// changed as a terminal changes what goes out. All 256 values and three lengths of zeros go out
/// after 05h, each answered before the next.
///
/// A fault is that of the first exchange that ended early.
pub fn test_line<R: ByteIn, W: ByteOut>(
    from: &mut R,
    to: &mut W,
    limits: &Limits,
) -> Result<(), Fault>
    ensures tests { TestsLine (wire (W.held to.old) (R.ahead from.old))
        (wire (W.held to.new) (R.ahead from.new))
        result limits.now }
    ensures counts { CountsReads (R.count from.old) (R.count from.new) result
        × CountsWrites (W.count to.old) (W.count to.new) result }
{
    send_values(from, to, limits)?;
    send_lengths(from, to, limits.sent)?;
    end(from, to)
}

/// Has the device send all values, as many at once as it sends after 05h.
fn send_values<R: ByteIn, W: ByteOut>(
    from: &mut R,
    to: &mut W,
    limits: &Limits,
) -> Result<(), Fault>
    ensures sends { SendsValues (wire (W.held to.old) (R.ahead from.old))
        (wire (W.held to.new) (R.ahead from.new)) result limits.now.sent }
    ensures counts { CountsReads (R.count from.old) (R.count from.new) result
        × CountsWrites (W.count to.old) (W.count to.new) result }
{
    if limits.sent == 1 {
        return Ok(());
    }
    send_pieces(from, to, limits.sent as usize - 1)
}

/// Has the device send all values, so many at once.
fn send_pieces<R: ByteIn, W: ByteOut>(from: &mut R, to: &mut W, room: usize) -> Result<(), Fault>
    requires some { 0 < room }
    requires few { room < 2 ^ 24 - 1 }
    ensures sends { SendsValues (wire (W.held to.old) (R.ahead from.old))
        (wire (W.held to.new) (R.ahead from.new)) result (room + 1) }
    ensures counts { CountsReads (R.count from.old) (R.count from.new) result
        × CountsWrites (W.count to.old) (W.count to.new) result }
{
    let values = all_values();
    let mut done = 0;
    while done < values.len() {
        let len = (values.len() - done).min(room);
        send_ignored(from, to, &values[done..done + len])?;
        done += len;
    }
    Ok(())
}

/// All byte values, in rising order.
fn all_values() -> [u8; 256]
    ensures { result ≡ all_values }
{
    let mut values = [0; 256];
    for place in 0..values.len() {
        values[place] = place as u8;
    }
    values
}

/// Has the device send 05h and zeros, of each length that it can.
fn send_lengths<R: ByteIn, W: ByteOut>(from: &mut R, to: &mut W, sent: u32) -> Result<(), Fault>
    ensures does { Exchanges (wire (W.held to.old) (R.ahead from.old))
        (wire (W.held to.new) (R.ahead from.new))
        result (lengths_test sent) }
    ensures counts { CountsReads (R.count from.old) (R.count from.new) result
        × CountsWrites (W.count to.old) (W.count to.new) result }
{
    send_zeros(from, to, sent, 0x0D)?;
    send_zeros(from, to, sent, 0x61)?;
    send_zeros(from, to, sent, 0x80)
}

/// Has the device send 05h and zeros, so many bytes in all, where it can.
fn send_zeros<R: ByteIn, W: ByteOut>(
    from: &mut R,
    to: &mut W,
    sent: u32,
    count: u32,
) -> Result<(), Fault>
    requires some { 0 < count }
    requires few { count ≤ 128 }
    ensures does { Exchanges (wire (W.held to.old) (R.ahead from.old))
        (wire (W.held to.new) (R.ahead from.new))
        result (zeros_if sent count) }
    ensures counts { CountsReads (R.count from.old) (R.count from.new) result
        × CountsWrites (W.count to.old) (W.count to.new) result }
{
    if sent < count {
        return Ok(());
    }
    let zeros = [0; 128];
    send_ignored(from, to, &zeros[..count as usize - 1])
}

/// Has the device send 05h and then bytes that the chip ignores.
fn send_ignored<R: ByteIn, W: ByteOut>(from: &mut R, to: &mut W, bytes: &[u8]) -> Result<(), Fault>
    requires few { length bytes.now < 2 ^ 24 - 1 }
    ensures does { Exchanges (wire (W.held to.old) (R.ahead from.old))
        (wire (W.held to.new) (R.ahead from.new))
        result (ignored bytes.now ∷ []) }
    ensures counts { CountsReads (R.count from.old) (R.count from.new) result
        × CountsWrites (W.count to.old) (W.count to.new) result }
{
    let head = head(bytes.len() as u32 + 1, 0);
    exchange(from, to, &[&head, &[READ_STATUS], bytes], &[ACK])
}

/// Does NOP, and then asks for the word, which is to come by itself.
fn end<R: ByteIn, W: ByteOut>(from: &mut R, to: &mut W) -> Result<(), Fault>
    ensures does { Exchanges (wire (W.held to.old) (R.ahead from.old))
        (wire (W.held to.new) (R.ahead from.new))
        result end_test }
    ensures counts { CountsReads (R.count from.old) (R.count from.new) result
        × CountsWrites (W.count to.old) (W.count to.new) result }
{
    exchange(from, to, &[&[NOP]], &[ACK])?;
    exchange(from, to, &[Command::SyncNop.bytes()], &[NAK, ACK])
}
