//! The status registers of the chip behind a device (W25Q256JV datasheet: Read Status Register-1
//! 05h, -2 35h, -3 15h).

ghost use Rattle.std.specs.Prelude.{◌≡◌, ◌<◌};
ghost use Rattle.nor_sfdp.specs.Bits.{is_set};
ghost use Rattle.nor_serprog.specs.declared.fault.Fault.TheVariants.{Read, Write};
ghost use Rattle.nor_serprog.specs.Exchange.{CountsReads, CountsWrites};
ghost use Rattle.nor_reader.specs.Status.{ends_wait, ReadsRegister, Settles, ReadsStatus};
ghost use Rattle.nor_reader.specs.Status.{CountsReason};
ghost use Rattle.nor_reader.specs.Status.{is_closed, is_faulty, starts_so, suits};
ghost use Rattle.nor_base.specs.Wire.{wire};

use nor_base::{ByteIn, ByteOut, Part, Start};
use nor_serprog::{Fault, Reason, operate};

/// The instruction that reads S7 to S0.
const READ_STATUS_1: u8 = 0x05;

/// The one that reads S15 to S8.
const READ_STATUS_2: u8 = 0x35;

/// The one that reads S23 to S16.
const READ_STATUS_3: u8 = 0x15;

/// What an open line gives in place of a status. A chip that sets all these bits is protected, so
/// nothing is lost by not waiting.
const OPEN_LINE: u8 = 0xFF;

/// Bit S16, ADS: four-byte address mode.
const MODE4: u32 = 16;

/// Bit S9, QE: quad enable.
const QUAD: u32 = 9;

/// Reads the status of the chip behind a device (05h, S7 to S0) again and again until it says idle
/// or is FFh, which an open line gives, at most so many times: the last status that came.
///
/// `Busy` where each said busy, `Exchange` where the exchange of a status read ended early.
pub fn idle_status<R: ByteIn, W: ByteOut>(
    from: &mut R,
    to: &mut W,
    turns: u64,
) -> Result<u8, Reason>
    ensures settles { Settles (wire (W.held to.old) (R.ahead from.old))
        (wire (W.held to.new) (R.ahead from.new))
        result turns }
    ensures counts { CountsReason Read (R.count from.old) (R.count from.new) result
        × CountsReason Write (W.count to.old) (W.count to.new) result }
{
    for _ in 0..turns {
        let status = read_register(from, to, READ_STATUS_1)?;
        if ends_wait(status) {
            return Ok(status);
        }
    }
    Err(Reason::Busy)
}

/// Whether a status ends the wait for an idle chip: it says idle, or it is what an open line gives.
fn ends_wait(status: u8) -> bool
    ensures { result ≡ ends_wait status }
{
    status % 2 == 0 || status == OPEN_LINE
}

/// The status bits of the chip behind a device, once it is idle: S7 to S0, of a part with three
/// status registers S23 to S0. It waits as [`idle_status`] does, and reads the others after that.
///
/// The errors are those of [`idle_status`]; `Exchange` also where the exchange of a later register
/// ended early.
pub fn chip_status<R: ByteIn, W: ByteOut>(
    from: &mut R,
    to: &mut W,
    part: Part,
    turns: u64,
) -> Result<u32, Reason>
    ensures status { ReadsStatus part (wire (W.held to.old) (R.ahead from.old))
        (wire (W.held to.new) (R.ahead from.new)) result turns }
    ensures counts { CountsReason Read (R.count from.old) (R.count from.new) result
        × CountsReason Write (W.count to.old) (W.count to.new) result }
{
    let first = idle_status(from, to, turns)?;
    match part {
        Part::Generic => Ok(u32::from(first)),
        Part::W25q256jv => {
            let second = read_register(from, to, READ_STATUS_2)?;
            let third = read_register(from, to, READ_STATUS_3)?;
            Ok(u32::from(first) + 256 * u32::from(second) + 65536 * u32::from(third))
        }
    }
}

/// The byte that the chip behind a device gives after an opcode: a register that is read so.
///
/// An error where the exchange ended early, as of [`operate`].
pub fn read_register<R: ByteIn, W: ByteOut>(
    from: &mut R,
    to: &mut W,
    opcode: u8,
) -> Result<u8, Fault>
    ensures register { ReadsRegister (wire (W.held to.old) (R.ahead from.old))
        (wire (W.held to.new) (R.ahead from.new)) result opcode }
    ensures counts { CountsReads (R.count from.old) (R.count from.new) result
        × CountsWrites (W.count to.old) (W.count to.new) result }
{
    let mut byte = [0];
    operate(from, to, &[opcode], &mut byte)?;
    Ok(byte[0])
}

/// Whether an idle chip of this status is as a job wants it: its latch clear and nothing protected.
/// Of a part whose other status bits are known it is also not suspended, and as the job's start
/// says.
///
/// Of a generic part only S1 to S5 are looked at.
#[tactic(auto, using(crate::proofs::StatusBits::none_named))]
pub fn suits(part: Part, start: Start, status: u32) -> bool
    ensures { result ≡ suits part start status }
{
    match part {
        Part::Generic => !is_closed(status),
        Part::W25q256jv => !is_faulty(status) && starts_so(start, status),
    }
}

/// Whether S16 and S9 are the address mode and the quad setting of a start.
fn starts_so(start: Start, status: u32) -> bool
    ensures { result ≡ starts_so start status }
{
    is_set(status, MODE4) == start.mode4 && is_set(status, QUAD) == start.quad
}

/// Some bit of S7 to S0 is set that keeps a job out: the write enable latch (WEL, S1) or block
/// protection (S2 to S5).
fn is_closed(status: u32) -> bool
    ensures { result ≡ is_closed status }
{
    [1, 2, 3, 4, 5].iter().any(|n| is_set(status, *n))
}

/// Some bit of S23 to S0 is set that does: BUSY, WEL, SUS, or one of block protection.
fn is_faulty(status: u32) -> bool
    ensures { result ≡ is_faulty status }
{
    [0, 1, 15, 2, 3, 4, 5, 14, 18]
        .iter()
        .any(|n| is_set(status, *n))
}

/// One bit.
fn is_set(status: u32, n: u32) -> bool
    requires { n < 32 }
    ensures { result ≡ is_set status n }
{
    (status >> n) % 2 == 1
}
