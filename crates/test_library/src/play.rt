//! Plays at a port that fails, and where memory is refused.

use crate::ports::Unplugged;
use crate::same::{holds, same};
use nor_base::Step;
use nor_chip::Port;
use nor_play::{PlayFault, play};
use nor_script::read;
use std::alloc::Global;
use std::process::Abort;
use std::test::Fail;
use test_samples::small_chip;
use test_samples::texts::ONE_BYTE;

/// An erase of the sector at 0, then a program of 00h at 0 and A5h at 5.
const ERASE: &str = "norscript 1\nx 00000110\nx 00100000000000000000000000000000\n\
    p 00000101........\nx 00000110\nx 00000010000000000000000000000000\
    000000001111111111111111111111111111111110100101\np 00000101........\nend 6\n";

/// A program of 00h at 0, and a read of it.
const VERIFY: &str =
    "norscript 1\nx 00000110\nx 0000001000000000000000000000000000000000\np 00000101........\n\
    v 00000011000000000000000000000000........ 00\nend 4\n";

/// Plays a script on a chip that is busy for two status reads after each program or erase, and is
/// unplugged after each number of transactions: the play fails at the step of the next, and a port
/// that failed isn't asked again.
fn fails_at_each(
    rt: &impl Abort,
    alloc: Global,
    text: &str,
    steps_of_all: &[u64],
) -> Result<(), Fail> {
    let steps = read(alloc, text.as_bytes())?;
    for done in 0..=steps_of_all.len() {
        let step = steps_of_all.get(done).copied();
        fails_at(rt, alloc, &steps, done as u64, step)?;
    }
    Ok(())
}

/// Plays steps on such a chip that is unplugged after so many transactions: the play fails at this
/// step, if at any.
fn fails_at(
    rt: &impl Abort,
    alloc: Global,
    steps: &[Step],
    done: u64,
    step: Option<u64>,
) -> Result<(), Fail> {
    let meaning = small_chip();
    let mut port = Unplugged::new(rt, alloc, &meaning, &[2, 2], done)?;
    let want = match step {
        Some(step) => Err(PlayFault::PortFailed { step }),
        None => Ok(u128::from(done)),
    };
    holds(rt, "no failure yet", port.failures() == 0);
    same(rt, "played", play(alloc, steps, &mut port, 10), want);
    same(rt, "failures", port.failures(), u64::from(step.is_some()));
    Ok(())
}

#[test]
fn each_transaction_fails(rt: HostRuntime) -> Result<(), Fail> {
    fails_at_each(&rt, rt.alloc(), ONE_BYTE, &[0, 1, 2, 2, 2])?;
    fails_at_each(&rt, rt.alloc(), ERASE, &[0, 1, 2, 2, 2, 3, 4, 5, 5, 5])?;
    fails_at_each(&rt, rt.alloc(), VERIFY, &[0, 1, 2, 2, 2, 3])
}

/// Plays the script with its read, for which bytes are gathered. Memory where its own memory is
/// refused too.
fn plays(rt: &impl Abort, alloc: Global) -> Result<u128, PlayFault> {
    match read(alloc, VERIFY.as_bytes()) {
        Ok(steps) => plays_all(rt, alloc, &steps),
        Err(_) => Err(PlayFault::Memory),
    }
}

/// Plays steps on a chip that is never unplugged.
fn plays_all(rt: &impl Abort, alloc: Global, steps: &[Step]) -> Result<u128, PlayFault> {
    let meaning = small_chip();
    match Unplugged::new(rt, alloc, &meaning, &[], u64::MAX) {
        Ok(mut port) => {
            holds(rt, "no failure yet", port.failures() == 0);
            play(alloc, steps, &mut port, 10)
        }
        Err(_) => Err(PlayFault::Memory),
    }
}

/// Memory is not wanting, so there are four transactions.
#[test]
fn plays_each_step(rt: HostRuntime) {
    same(&rt, "played", plays(&rt, rt.alloc()), Ok(4));
}

/// With each growth refused in turn, as `tools/refused-growths` does, the fault is Memory.
#[test]
fn a_refused_growth_is_memory(rt: HostRuntime) {
    let fine = matches!(plays(&rt, rt.alloc()), Ok(4) | Err(PlayFault::Memory));
    holds(&rt, "played", fine);
}
