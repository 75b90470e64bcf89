//! The steps of a script, done by a device.

ghost use Rattle.std.specs.Prelude.{◌↔◌, IsTrue, MatchResult};
ghost use Rattle.nor_serprog.specs.declared.fault.Fault.TheVariants.{Read, Write};
ghost use Rattle.nor_serprog.specs.Done.{IsDoable, HasDone, HasStopped};
ghost use Rattle.nor_serprog.specs.Follow.{CountsReason};
ghost use Rattle.nor_serprog.specs.Steps.{AreCarried, IsFirstNotCarried};
ghost use Rattle.nor_base.specs.Wire.{wire};

use crate::clocks::is_carried;
use crate::fault::Reason;
use crate::follow::{operate_once, wait};
use crate::limits::Limits;
use nor_base::{ByteIn, ByteOut, Step, sampled};
use nor_decode::POLL;

/// Has the device do a step. A [`Step::Poll`] reads the status until it says idle, `turns` times at
/// most.
///
/// `Busy` where each status said busy; `Carried` where the clocks are no operation within the
/// limits, and then nothing is asked; `Differs` and `Exchange` as
/// [`operate_with`](crate::operate_with).
pub fn do_step<R: ByteIn, W: ByteOut>(
    from: &mut R,
    to: &mut W,
    limits: &Limits,
    turns: u64,
    step: &Step,
) -> Result<(), Reason>
    requires form { IsDoable step.now }
    ensures done { MatchResult result
        (λ _. HasDone (wire (W.held to.old) (R.ahead from.old))
        (wire (W.held to.new) (R.ahead from.new))
        limits.now turns step.now)
        (λ why. HasStopped (wire (W.held to.old) (R.ahead from.old))
        (wire (W.held to.new) (R.ahead from.new))
        limits.now turns why
        step.now) }
    ensures counts { CountsReason Read (R.count from.old) (R.count from.new) result
        × CountsReason Write (W.count to.old) (W.count to.new) result }
{
    match step {
        Step::Send { clocks } => operate_once(from, to, limits, clocks.as_slice(), &[]),
        Step::Poll { .. } => wait(from, to, limits, turns),
        Step::Verify { clocks, expect } => {
            operate_once(from, to, limits, clocks.as_slice(), expect.as_slice())
        }
    }
}

/// Whether [`do_step`] takes a step: a [`Step::Send`] samples nothing, a [`Step::Poll`] has the
/// clocks of a status read, and a [`Step::Verify`] expects as many bytes as its clocks sample.
pub fn is_doable(step: &Step) -> bool
    ensures { IsTrue result ↔ IsDoable step.now }
{
    match step {
        Step::Send { clocks } => sampled(clocks.as_slice()) == 0,
        Step::Poll { clocks } => clocks.as_slice() == POLL.as_slice(),
        Step::Verify { clocks, expect } => expect.as_slice().len() == sampled(clocks.as_slice()),
    }
}

/// Whether the clocks of each step are one operation of a device with these limits. At Err the
/// first step whose clocks aren't, counted from 0.
pub fn carried(steps: &[Step], limits: &Limits) -> Result<(), u64>
    ensures { MatchResult result (λ _. AreCarried limits.now steps.now)
        (IsFirstNotCarried limits.now steps.now) }
{
    let mut number: u64 = 0;
    for step in steps {
        if !is_carried(step.clocks(), limits) {
            return Err(number);
        }
        number += 1;
    }
    Ok(())
}
