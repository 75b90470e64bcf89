//! One read of the chip behind a device.

ghost use Rattle.std.specs.Prelude.{◌<◌, ◌+◌, ◌^◌, [], ◌∷◌, length, MatchResult};
ghost use Rattle.nor_loop.specs.Log.{HasLogged};
ghost use Rattle.nor_reader.specs.Compared.{CountsMismatch};
ghost use Rattle.nor_serprog.specs.declared.fault.Fault.TheVariants.{Read, Write};
ghost use Rattle.nor_serprog.specs.Exchange.{Answers, Asks, CountsReads, CountsWrites, Knows};
ghost use Rattle.nor_serprog.specs.Follow.{CountsReason};
ghost use Rattle.nor_serprog.specs.Protocol.{request};
ghost use Rattle.nor_reader.specs.Again.{ReadsPiece};
ghost use Rattle.nor_loop.specs.Reads.{chunk};
ghost use Rattle.nor_reader.specs.Reads.{sent_by, read_op, reads, StopsPiece};
ghost use Rattle.nor_base.specs.Wire.{wire};

use crate::by::ReadBy;
use crate::difference::{Difference, Mismatch};
use nor_base::{ByteIn, ByteOut};
use nor_serprog::{Fault, Limits, Reason, operate, operate_with};

/// Has the device read as many bytes as a piece has room for, from an address on.
pub(crate) fn read_piece<R: ByteIn, W: ByteOut>(
    from: &mut R,
    to: &mut W,
    by: ReadBy,
    address: u32,
    piece: &mut [u8],
) -> Result<(), Fault>
    requires size { length piece.old < 2 ^ 24 }
    ensures read { MatchResult result
        (λ _. HasLogged (wire (W.held to.old) (R.ahead from.old))
        (wire (W.held to.new) (R.ahead from.new))
        (read_op by address piece.new ∷ []))
        (StopsPiece (reads (length piece.new) by) (wire (W.held to.old) (R.ahead from.old))
        (wire (W.held to.new) (R.ahead from.new)) (chunk address piece.new)) }
    ensures counts { CountsReads (R.count from.old) (R.count from.new) result
        × CountsWrites (W.count to.old) (W.count to.new) result }
{
    ask_piece(from, to, by, address, piece)
}

/// The same, as the exchange.
fn ask_piece<R: ByteIn, W: ByteOut>(
    from: &mut R,
    to: &mut W,
    by: ReadBy,
    address: u32,
    piece: &mut [u8],
) -> Result<(), Fault>
    requires size { length piece.old < 2 ^ 24 }
    ensures asked { Asks (wire (W.held to.old) (R.ahead from.old))
        (wire (W.held to.new) (R.ahead from.new))
        result
        (request (sent_by by address (length piece.new)) (length piece.new))
        (Answers (R.ahead from.old) (R.ahead from.new) result piece.new) }
    ensures counts { CountsReads (R.count from.old) (R.count from.new) result
        × CountsWrites (W.count to.old) (W.count to.new) result }
{
    let [highest, high, low, lowest] = address.to_be_bytes();
    match by {
        ReadBy::Tables => operate(from, to, &[0x5A, high, low, lowest, 0x00], piece),
        ReadBy::FourBytes => operate(from, to, &[0x13, highest, high, low, lowest], piece),
        ReadBy::Entered { .. } => operate(from, to, &[0x03, highest, high, low, lowest], piece),
        ReadBy::Content { mode4 } => {
            if mode4 {
                operate(from, to, &[0x03, highest, high, low, lowest], piece)
            } else if address as usize + piece.len() > 1 << 24 {
                operate(from, to, &[0x13, highest, high, low, lowest], piece)
            } else {
                operate(from, to, &[0x03, high, low, lowest], piece)
            }
        }
    }
}

/// Has the device read as many bytes as a piece has, from an address on, and compares them with it.
pub(crate) fn compare_piece<R: ByteIn, W: ByteOut>(
    from: &mut R,
    to: &mut W,
    by: ReadBy,
    address: u32,
    piece: &[u8],
) -> Result<(), Mismatch>
    requires size { length piece.now < 2 ^ 24 }
    requires end { address + length piece.now < 2 ^ 32 + 1 }
    ensures read { ReadsPiece (reads (length piece.now) by)
        (wire (W.held to.old) (R.ahead from.old)) (wire (W.held to.new) (R.ahead from.new)) result
        (chunk address piece.now) }
    ensures counts { CountsMismatch Read (R.count from.old) (R.count from.new) result
        × CountsMismatch Write (W.count to.old) (W.count to.new) result }
{
    match expect_piece(from, to, by, address, piece) {
        Ok(()) => Ok(()),
        Err(Reason::Exchange(why)) => Err(Mismatch::Exchange(why)),
        Err(Reason::Differs { place, byte }) => Err(Mismatch::Differs(Difference {
            address: address + place,
            chip: byte,
            want: piece[place as usize],
        })),
        Err(Reason::Busy) | Err(Reason::Carried) => unreachable!("nothing is waited for"),
    }
}

/// The same, as the exchange.
fn expect_piece<R: ByteIn, W: ByteOut>(
    from: &mut R,
    to: &mut W,
    by: ReadBy,
    address: u32,
    piece: &[u8],
) -> Result<(), Reason>
    requires size { length piece.now < 2 ^ 24 }
    ensures known { Knows (wire (W.held to.old) (R.ahead from.old))
        (wire (W.held to.new) (R.ahead from.new))
        result
        (request (sent_by by address (length piece.now)) (length piece.now)) piece.now }
    ensures counts { CountsReason Read (R.count from.old) (R.count from.new) result
        × CountsReason Write (W.count to.old) (W.count to.new) result }
{
    let [highest, high, low, lowest] = address.to_be_bytes();
    match by {
        ReadBy::Tables => operate_with(from, to, &[0x5A, high, low, lowest, 0x00], piece),
        ReadBy::FourBytes => operate_with(from, to, &[0x13, highest, high, low, lowest], piece),
        ReadBy::Entered { .. } => operate_with(
            from,
            to,
            &[0x03, highest, high, low, lowest],
            piece,
        ),
        ReadBy::Content { mode4 } => {
            if mode4 {
                operate_with(from, to, &[0x03, highest, high, low, lowest], piece)
            } else if address as usize + piece.len() > 1 << 24 {
                operate_with(from, to, &[0x13, highest, high, low, lowest], piece)
            } else {
                operate_with(from, to, &[0x03, high, low, lowest], piece)
            }
        }
    }
}
