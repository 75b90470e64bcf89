//! One step, on a port.

ghost use Rattle.std.specs.Prelude.{◌≡◌, ◌<◌, MatchResult};
ghost use Rattle.nor_base.specs.declared.step.Step.TheVariants.{Send, Poll, Verify};
ghost use Rattle.nor_base.specs.Sample.{sampled_count};
ghost use Rattle.nor_chip.specs.Asked.{AsksMore};
ghost use Rattle.nor_play.specs.Turns.{Gives, Halts, PlaysStep, CountsHalt};
ghost use Rattle.nor_play.specs.Asks.{AsksStep, AsksOnce};

use crate::fault::Halt;
use memchr::memchr2;
use nor_base::{Wrong, sampled};
use nor_chip::Port;
use nor_decode::{POLL, is_verify};
use nor_laws::verifying_reads;
use std::alloc::Global;

/// Sends clocks once.
pub(crate) fn send<P: Port>(
    alloc: Global,
    clocks: &[u8],
    port: &mut P,
    limit: u64,
) -> Result<u64, Halt>
    requires limit { 0 < limit }
    ensures played { PlaysStep (P.shown port.old) (P.shown port.new) limit (Send clocks.now)
        result }
    ensures count { CountsHalt (P.count port.old) (P.count port.new) result }
    ensures asked { AsksStep (P.shown port.old)
        (AsksMore (P.asked port.old) (P.asked port.new)) limit (Send clocks.now) result }
{
    let _bytes = transact(alloc, clocks, port)?;
    Ok(1)
}

/// Sends clocks once, and compares the bytes that they sample.
pub(crate) fn verify<P: Port>(
    alloc: Global,
    clocks: &[u8],
    expect: &[u8],
    port: &mut P,
    limit: u64,
) -> Result<u64, Halt>
    requires limit { 0 < limit }
    ensures played { PlaysStep (P.shown port.old) (P.shown port.new) limit
        (Verify clocks.now expect.now) result }
    ensures count { CountsHalt (P.count port.old) (P.count port.new) result }
    ensures asked { AsksStep (P.shown port.old)
        (AsksMore (P.asked port.old) (P.asked port.new)) limit
        (Verify clocks.now expect.now) result }
{
    // so a chip whose bytes differ is as it was
    verifying_reads();
    if !is_verify(clocks) {
        return Err(Halt::Wrong(Wrong::Unknown));
    }
    let bytes = transact(alloc, clocks, port)?;
    if bytes.as_slice() != expect {
        return Err(Halt::Wrong(Wrong::Mismatch));
    }
    Ok(1)
}

/// Reads the status until it says idle, at most so many times.
pub(crate) fn poll<P: Port>(clocks: &[u8], port: &mut P, limit: u64) -> Result<u64, Halt>
    requires limit { 0 < limit }
    ensures played { PlaysStep (P.shown port.old) (P.shown port.new) limit (Poll clocks.now)
        result }
    ensures count { CountsHalt (P.count port.old) (P.count port.new) result }
    ensures asked { AsksStep (P.shown port.old)
        (AsksMore (P.asked port.old) (P.asked port.new)) limit (Poll clocks.now) result }
{
    if clocks != POLL.as_slice() {
        return Err(Halt::Wrong(Wrong::Unknown));
    }
    let waited = port.wait_busy(limit);
    let mut out = [0];
    for turn in waited..limit {
        port.transact(POLL, &mut out)?;
        if out[0] % 2 == 0 {
            return Ok(turn + 1);
        }
    }
    Err(Halt::Wrong(Wrong::PollNever))
}

/// One transaction, and the bytes that its clocks sample.
fn transact<P: Port>(alloc: Global, clocks: &[u8], port: &mut P) -> Result<Vec<u8>, Halt>
    ensures given { MatchResult result
        (λ bytes. Gives (P.shown port.old) (P.shown port.new) clocks.now bytes.items)
        (λ halt. Halts (P.shown port.old) (P.shown port.new) clocks.now halt) }
    ensures count { CountsHalt (P.count port.old) (P.count port.new) result }
    ensures asked { AsksOnce (AsksMore (P.asked port.old) (P.asked port.new)) result }
{
    let mut out = vec![in alloc; 0u8; count_sampled(clocks)]?;
    port.transact(clocks, out.as_mut_slice())?;
    Ok(out)
}

/// How many bytes the clocks sample.
// most transactions sample none, which a search tells sooner than a count
fn count_sampled(clocks: &[u8]) -> usize
    ensures { result ≡ sampled_count clocks.now }
{
    match memchr2(b'.', b'=', clocks) {
        Some(_) => sampled(clocks),
        None => 0,
    }
}
