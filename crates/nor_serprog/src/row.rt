//! Steps whose requests go out in one write, before any of their answers is taken.

ghost use Rattle.std.specs.Bool.{OnTrue};
ghost use Rattle.std.specs.Prelude.{◌≡◌, ◌≤◌, ◌<◌, ◌⊎◌, ◌^◌, ◌++◌, [], ◌∷◌, ℕ, List, All};
ghost use Rattle.std.specs.Prelude.{IfSome, MatchResult, length, take};
ghost use Rattle.nor_base.specs.Sample.{sampled_count};
ghost use Rattle.nor_base.specs.Step.{expected};
ghost use Rattle.nor_base.specs.declared.step.Step.TheVariants.{Poll};
ghost use Rattle.nor_serprog.specs.declared.fault.Fault.TheVariants.{Read, Write};
ghost use Rattle.nor_serprog.specs.Carried.{IsOperation};
ghost use Rattle.nor_serprog.specs.Follow.{most_ahead};
ghost use Rattle.nor_serprog.specs.Protocol.{request};
ghost use Rattle.nor_serprog.specs.Done.{IsDoable, HasDoneAll};
ghost use Rattle.nor_serprog.specs.Row.{AreFront, AreSent, CountsHalt, FitAhead, HasHalted};
ghost use Rattle.nor_serprog.specs.Row.{IsAsked, IsForm, IsRow, IsSent, StopsAnswers, TakesAnswers};
ghost use Rattle.nor_base.specs.Wire.{wire};

use crate::clocks::bits_sent;
use crate::done::do_step;
use crate::exchange::answered;
use crate::fault::{Fault, Reason};
use crate::follow::wait_on;
use crate::halt::Halt;
use crate::limits::Limits;
use crate::put::{MOST_BYTES, Requests, add_reads, add_request, count_sent};
use nor_base::{ByteIn, ByteOut, Step, put_all};

/// A write enable.
const ENABLE: &[u8; 8] = b"00000110";

/// The bytes of a request before those that the operation sends.
const HEAD: usize = 7;

/// How many of the first steps make a row: a change and its poll, with its write enable or without,
/// or verifying reads, as many as the device takes before it answers; else one step.
pub fn row_length(steps: &[Step], limits: &Limits) -> usize
    requires some { 0 < length steps.now }
    requires form { All IsDoable steps.now }
    ensures some { 0 < result }
    ensures within { result ≤ length steps.now }
    ensures row { IsRow limits.now (take result steps.now) }
{
    let near = &steps[..ahead_count(steps, limits)];
    form_length(near).max(1)
}

/// How many of the first steps have requests that fit what the device takes before it answers.
fn ahead_count(steps: &[Step], limits: &Limits) -> usize
    requires { All IsDoable steps.now }
    ensures within { result ≤ length steps.now }
    ensures fit { FitAhead limits.now (take result steps.now) }
{
    let mut room = usize::from(limits.ahead).min(MOST_BYTES);
    for (count, step) in steps.iter().enumerate() {
        match request_length(step, limits) {
            Some(bytes) if bytes <= room => room -= bytes,
            _ => return count,
        }
    }
    steps.len()
}

/// The bytes of a step's request, where its clocks are an operation of the device.
fn request_length(step: &Step, limits: &Limits) -> Option<usize>
    requires { IsDoable step.now }
    ensures { IfSome result (λ bytes. (put : List ℕ) × IsAsked limits.now 1 step.now put
        × (length put ≡ bytes)) }
{
    let bits = bits_sent(step.clocks(), limits)?;
    Some(HEAD + count_sent(bits))
}

/// How many of the first steps are of a form of a row that has more than one; 0 where none is.
fn form_length(steps: &[Step]) -> usize
    ensures within { result ≤ length steps.now }
    ensures form { 0 < result → IsForm (take result steps.now) }
{
    match steps {
        [
            Step::Send { clocks },
            Step::Send { .. },
            Step::Poll { .. },
            ..
        ] if clocks.as_slice() == ENABLE.as_slice() => { 3 }
        [Step::Send { .. }, Step::Poll { .. }, ..] => 2,
        _ => verify_count(steps),
    }
}

/// How many of the first steps are verifying reads.
fn verify_count(steps: &[Step]) -> usize
    ensures within { result ≤ length steps.now }
    ensures form { IsForm (take result steps.now) }
{
    for (count, step) in steps.iter().enumerate() {
        if !matches!(step, Step::Verify { .. }) {
            return count;
        }
    }
    steps.len()
}

/// Has the device do the steps of a row, each as [`do_step`](crate::do_step): their requests go out
/// in one write, then the answers are taken. Of a poll up to four status reads go out so, as many
/// as fit what the device takes before it answers.
///
/// At the first step that isn't done it stops: the halt has its number in the row, from 0, and the
/// reason.
pub fn do_row<R: ByteIn, W: ByteOut>(
    from: &mut R,
    to: &mut W,
    limits: &Limits,
    turns: u64,
    row: &[Step],
) -> Result<(), Halt>
    requires form { All IsDoable row.now }
    requires row { IsRow limits.now row.now }
    ensures done { MatchResult result
        (λ _. HasDoneAll (wire (W.held to.old) (R.ahead from.old))
        (wire (W.held to.new) (R.ahead from.new))
        limits.now turns row.now)
        (λ halt. HasHalted (wire (W.held to.old) (R.ahead from.old))
        (wire (W.held to.new) (R.ahead from.new))
        limits.now turns row.now
        halt) }
    ensures counts { CountsHalt Read (R.count from.old) (R.count from.new) result
        × CountsHalt Write (W.count to.old) (W.count to.new) result }
{
    if row.len() > 1 {
        let front = before_poll(row);
        if let Some(requests) = gathered(front, limits) {
            return do_ahead(from, to, limits, turns, row, front, requests);
        }
    }
    do_each(from, to, limits, turns, row)
}

/// Has the device do steps, one after the other.
fn do_each<R: ByteIn, W: ByteOut>(
    from: &mut R,
    to: &mut W,
    limits: &Limits,
    turns: u64,
    row: &[Step],
) -> Result<(), Halt>
    requires form { All IsDoable row.now }
    ensures done { MatchResult result
        (λ _. HasDoneAll (wire (W.held to.old) (R.ahead from.old))
        (wire (W.held to.new) (R.ahead from.new))
        limits.now turns row.now)
        (λ halt. HasHalted (wire (W.held to.old) (R.ahead from.old))
        (wire (W.held to.new) (R.ahead from.new))
        limits.now turns row.now
        halt) }
    ensures counts { CountsHalt Read (R.count from.old) (R.count from.new) result
        × CountsHalt Write (W.count to.old) (W.count to.new) result }
{
    let mut number = 0;
    for step in row {
        if let Err(why) = do_step(from, to, limits, turns, step) {
            return Err(Halt { step: number, why });
        }
        number += 1;
    }
    Ok(())
}

/// Has the device do a row. The requests are those of the steps in front, before its poll.
fn do_ahead<R: ByteIn, W: ByteOut>(
    from: &mut R,
    to: &mut W,
    limits: &Limits,
    turns: u64,
    row: &[Step],
    front: &[Step],
    requests: Requests,
) -> Result<(), Halt>
    requires form { All IsDoable row.now }
    requires row { IsRow limits.now row.now }
    requires front { AreFront limits.now row.now front.now requests.items }
    ensures done { MatchResult result
        (λ _. HasDoneAll (wire (W.held to.old) (R.ahead from.old))
        (wire (W.held to.new) (R.ahead from.new))
        limits.now turns row.now)
        (λ halt. HasHalted (wire (W.held to.old) (R.ahead from.old))
        (wire (W.held to.new) (R.ahead from.new))
        limits.now turns row.now
        halt) }
    ensures counts { CountsHalt Read (R.count from.old) (R.count from.new) result
        × CountsHalt Write (W.count to.old) (W.count to.new) result }
{
    let mut requests = requests;
    let polls = front.len() < row.len();
    let reads = if polls {
        add_reads(&mut requests, limits.ahead, turns)
    } else {
        0
    };
    if put_all(to, requests.as_slice()).is_err() {
        let why = Reason::Exchange(Fault::Write);
        return Err(Halt { step: 0, why });
    }
    take_answers(from, front)?;
    if polls {
        if let Err(why) = wait_on(from, to, limits, turns, reads) {
            let step = front.len() as u64;
            return Err(Halt { step, why });
        }
    }
    Ok(())
}

/// The steps before a poll that is the last; all where none is.
fn before_poll(row: &[Step]) -> &[Step]
    ensures { (row.now ≡ result.now)
        ⊎ ((wait : List ℕ) × (row.now ≡ result.now ++ Poll wait ∷ [])) }
{
    match row {
        [front @ .., Step::Poll { .. }] => front,
        _ => row,
    }
}

/// The requests of steps that aren't polls, where they fit what the device takes before it answers.
fn gathered(steps: &[Step], limits: &Limits) -> Option<Requests>
    requires { All IsDoable steps.now }
    ensures sent { IfSome result (λ requests. AreSent limits.now steps.now requests.items) }
    ensures fits { IfSome result (λ requests. length requests.items ≤ most_ahead limits.now) }
{
    let mut requests = Requests::new();
    for step in steps {
        if !add_step(&mut requests, step, limits) {
            return None;
        }
    }
    if requests.len() > usize::from(limits.ahead) {
        return None;
    }
    Some(requests)
}

/// Adds the request of a step that isn't a poll, where it is one of the device and has room;
/// whether it was added.
fn add_step(requests: &mut Requests, step: &Step, limits: &Limits) -> bool
    requires { IsDoable step.now }
    ensures { OnTrue result ((put : List ℕ) × (requests.new.items ≡ requests.old.items ++ put)
        × IsSent limits.now step.now put) }
{
    match step {
        Step::Send { clocks } => add_operation(requests, clocks.as_slice(), 0, limits),
        Step::Verify { clocks, expect } => {
            add_operation(requests, clocks.as_slice(), expect.as_slice().len(), limits)
        }
        Step::Poll { .. } => false,
    }
}

/// Adds the request of the operation of these clocks, where it is one of the device and has room;
/// whether it was added.
fn add_operation(requests: &mut Requests, clocks: &[u8], asked: usize, limits: &Limits) -> bool
    requires { asked ≡ sampled_count clocks.now }
    ensures { OnTrue result ((sent : List ℕ) × IsOperation limits.now clocks.now sent asked
        × (requests.new.items ≡ requests.old.items ++ request sent asked)) }
{
    match bits_sent(clocks, limits) {
        Some(bits) => add_request(requests, bits, asked as u32),
        None => false,
    }
}

/// Takes the answers of steps that aren't polls.
fn take_answers<R: ByteIn>(from: &mut R, steps: &[Step]) -> Result<(), Halt>
    requires few { All (λ x. length (expected x) < 2 ^ 24) steps.now }
    ensures done { MatchResult result
        (λ _. TakesAnswers (R.ahead from.old) (R.ahead from.new) steps.now)
        (StopsAnswers (R.ahead from.old) (R.ahead from.new) steps.now) }
    ensures reads { CountsHalt Read (R.count from.old) (R.count from.new) result }
{
    let mut number = 0;
    for step in steps {
        if let Err(why) = answered(from, step.expected()) {
            return Err(Halt { step: number, why });
        }
        number += 1;
    }
    Ok(())
}
