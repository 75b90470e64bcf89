//! Checks where memory is refused.

ghost use Rattle.std.specs.Prelude.{◌≡◌};

use crate::ports::PLAIN;
use crate::same::holds;
use nor_base::Step;
use nor_check::{CheckFault, StepChecker, Verdict, check};
use nor_script::read;
use std::alloc::Global;
use std::process::Abort;
use test_samples::texts::ONE_BYTE;
use test_samples::{BLANK, small_chip};

/// Checks the script that makes the byte at 0 of a chip that holds FFh 00h, as a whole or fed with
/// one step after another. Memory where its own memory is refused too.
fn says(rt: &impl Abort, alloc: Global, is_fed: bool) -> Result<Verdict, CheckFault> {
    let mut want = Vec::from_slice(alloc, &BLANK)?;
    if let Some(place) = want.first_mut() {
        *place = 0x00;
    }
    match read(alloc, ONE_BYTE.as_bytes()) {
        Ok(steps) if is_fed => feeds(rt, alloc, &steps, &want),
        Ok(steps) => checks(rt, alloc, &steps, &want),
        Err(_) => Err(CheckFault::Memory),
    }
}

/// Checks steps from a chip that holds FFh to one that holds this.
fn checks(
    rt: &impl Abort,
    alloc: Global,
    steps: &[Step],
    want: &[u8],
) -> Result<Verdict, CheckFault> {
    let chip = small_chip();
    let size = chip.size as usize;
    holds(rt, "bytes", BLANK.len() == size && want.len() == size);
    check(alloc, steps, &chip, &PLAIN, &BLANK, want)
}

/// As [`checks`], fed with one step after another. On a yes the chips are left with what is wanted.
fn feeds(
    rt: &impl Abort,
    alloc: Global,
    steps: &[Step],
    want: &[u8],
) -> Result<Verdict, CheckFault> {
    let have = Vec::from_slice(alloc, &BLANK)?;
    let chip = small_chip();
    let size = chip.size as usize;
    holds(rt, "bytes", have.len() == size && want.len() == size);
    let mut checker = StepChecker::new(alloc, &chip, PLAIN, have);
    feed_all(rt, alloc, &mut checker, steps)?;
    let said = checker.verdict(want);
    let same = match checker.left() {
        Some(left) => left.as_slice() == want,
        None => false,
    };
    holds(rt, "left", same == (said == Verdict::Yes));
    Ok(said)
}

/// Feeds a checker with borrowed clocks.
fn feed_all(
    rt: &impl Abort,
    alloc: Global,
    checker: &mut StepChecker<'_>,
    steps: &[Step],
) -> Result<(), CheckFault>
    ensures size { checker.new.size ≡ checker.old.size }
{
    for step in steps {
        holds(rt, "few steps", checker.number() <= 1000);
        match step {
            Step::Send { clocks } => checker.send(alloc, clocks.as_slice())?,
            Step::Poll { clocks } => checker.poll(alloc, clocks.as_slice())?,
            Step::Verify { clocks, expect } => {
                checker.verify(alloc, clocks.as_slice(), expect.as_slice())?
            }
        }
    }
    Ok(())
}

/// Memory is not wanting.
#[test]
fn says_yes(rt: HostRuntime) {
    let said = says(&rt, rt.alloc(), false);
    holds(&rt, "said", said == Ok(Verdict::Yes));
}

/// With each growth refused in turn, as `tools/refused-growths` does, the fault is Memory.
#[test]
fn a_refused_growth_is_memory(rt: HostRuntime) {
    let said = says(&rt, rt.alloc(), false);
    let refused = matches!(said, Err(CheckFault::Memory));
    holds(&rt, "said", refused || said == Ok(Verdict::Yes));
}

/// Fed with borrowed clocks it says the same.
#[test]
fn says_yes_when_fed(rt: HostRuntime) {
    let said = says(&rt, rt.alloc(), true);
    holds(&rt, "said", said == Ok(Verdict::Yes));
}
