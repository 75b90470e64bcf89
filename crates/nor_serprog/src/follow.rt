//! An operation by its clocks, and a wait for the status.

ghost use Rattle.std.specs.Prelude.{◌≡◌, ◌<◌, ◌≤◌, ◌^◌, ℕ, List, Option, length};
ghost use Rattle.std.specs.Io.KnownBytes.{Appends};
ghost use Rattle.nor_base.specs.Decoding.{bytes_of_bits};
ghost use Rattle.nor_base.specs.Sample.{sampled_count};
ghost use Rattle.nor_serprog.specs.declared.fault.Fault.TheVariants.{Read, Write};
ghost use Rattle.nor_serprog.specs.Exchange.{Knows};
ghost use Rattle.nor_serprog.specs.Follow.{Operates, TakesStatuses, Waits, CountsReason};
ghost use Rattle.nor_serprog.specs.Follow.{MayGoAtOnce, status_requests};
ghost use Rattle.nor_serprog.specs.Protocol.{request};
ghost use Rattle.nor_base.specs.Wire.{wire};

use crate::clocks::bits_sent;
use crate::exchange::{answered, told};
use crate::fault::{Fault, Reason};
use crate::limits::Limits;
use crate::put::{Requests, add_reads, put_request};
use nor_base::{ByteIn, ByteOut, put_all};

/// Has the device do the one operation of these clocks, which is to give these bytes.
pub(crate) fn operate_once<R: ByteIn, W: ByteOut>(
    from: &mut R,
    to: &mut W,
    limits: &Limits,
    clocks: &[u8],
    want: &[u8],
) -> Result<(), Reason>
    requires want { length want.now ≡ sampled_count clocks.now }
    ensures operates { Operates (wire (W.held to.old) (R.ahead from.old))
        (wire (W.held to.new) (R.ahead from.new)) result limits.now
        clocks.now want.now }
    ensures counts { CountsReason Read (R.count from.old) (R.count from.new) result
        × CountsReason Write (W.count to.old) (W.count to.new) result }
{
    match bits_sent(clocks, limits) {
        Some(bits) => operate_as(from, to, bits, want),
        None => Err(Reason::Carried),
    }
}

/// Reads the status of the chip behind the device until it says idle, so many times at most, up to
/// four times at once, as many as fit what the device takes before it answers.
pub(crate) fn wait<R: ByteIn, W: ByteOut>(
    from: &mut R,
    to: &mut W,
    limits: &Limits,
    turns: u64,
) -> Result<(), Reason>
    ensures waits { Waits (wire (W.held to.old) (R.ahead from.old))
        (wire (W.held to.new) (R.ahead from.new))
        result limits.now turns }
    ensures counts { CountsReason Read (R.count from.old) (R.count from.new) result
        × CountsReason Write (W.count to.old) (W.count to.new) result }
{
    let ahead = limits.ahead.max(8);
    let mut left = turns;
    while left > 0 {
        let mut requests = Requests::new();
        let reads = add_reads(&mut requests, ahead, left);
        if put_all(to, requests.as_slice()).is_err() {
            return Err(Reason::Exchange(Fault::Write));
        }
        if take_statuses(from, reads)? {
            return Ok(());
        }
        left -= reads;
    }
    Err(Reason::Busy)
}

/// The same where so many status reads went out, of which no answer was taken.
pub(crate) fn wait_on<R: ByteIn, W: ByteOut>(
    from: &mut R,
    to: &mut W,
    limits: &Limits,
    turns: u64,
    reads: u64,
) -> Result<(), Reason>
    requires few { MayGoAtOnce limits.now reads }
    requires within { reads ≤ turns }
    ensures waits { (held : Option (List ℕ)) → Appends held (W.held to.old) (status_requests reads)
        → Waits (wire held (R.ahead from.old)) (wire (W.held to.new) (R.ahead from.new)) result
        limits.now turns }
    ensures counts { CountsReason Read (R.count from.old) (R.count from.new) result
        × CountsReason Write (W.count to.old) (W.count to.new) result }
{
    if take_statuses(from, reads)? {
        return Ok(());
    }
    wait(from, to, limits, turns - reads)
}

/// Takes the answers to so many status reads: whether the last said idle. `Busy` at one that says
/// busy after one that said idle.
fn take_statuses<R: ByteIn>(from: &mut R, reads: u64) -> Result<bool, Reason>
    ensures takes { TakesStatuses (R.ahead from.old) (R.ahead from.new) result reads }
    ensures reads { CountsReason Read (R.count from.old) (R.count from.new) result }
{
    let mut was_idle = false;
    let mut status = [0];
    for _ in 0..reads {
        told(from, &mut status)?;
        let is_idle = status[0] % 2 == 0;
        if was_idle && !is_idle {
            return Err(Reason::Busy);
        }
        was_idle = is_idle;
    }
    Ok(was_idle)
}

/// Has the device do the operation of the bytes that these clocks send, which is to give these
/// bytes.
fn operate_as<R: ByteIn, W: ByteOut>(
    from: &mut R,
    to: &mut W,
    bits: &[u8],
    want: &[u8],
) -> Result<(), Reason>
    requires sent { length (bytes_of_bits bits.now) < 2 ^ 24 }
    requires asked { length want.now < 2 ^ 24 }
    ensures known { Knows (wire (W.held to.old) (R.ahead from.old))
        (wire (W.held to.new) (R.ahead from.new))
        result
        (request (bytes_of_bits bits.now) (length want.now)) want.now }
    ensures counts { CountsReason Read (R.count from.old) (R.count from.new) result
        × CountsReason Write (W.count to.old) (W.count to.new) result }
{
    put_request(to, bits, want.len() as u32).map_err(|_| Fault::Write)?;
    answered(from, want)
}
