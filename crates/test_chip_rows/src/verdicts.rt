//! Verdicts on scripts.

use crate::bench::Bench;
use crate::setup::Setup;
use crate::steps::steps_of;
use nor_base::{Step, Width};
use nor_check::{CheckFault, Verdict, Why, check};
use std::alloc::{AllocError, Global};
use std::fmt::Write;
use std::io;
use test_samples::rows::Row;
use test_samples::words::ODD;

/// Says whether steps do the task that the words say, on each chip.
pub(crate) fn tell(bench: &Bench<'_>, row: &Row<'_>, out: &mut String) -> io::Result<()> {
    let steps = steps_of(bench.alloc, row.given)?;
    let setup = Setup::of(bench, row.asked)?;
    tell_on(bench.alloc, &setup, steps.as_slice(), out)
}

/// The verdict on steps, from what a chip has to what it is to hold, if there is such a chip.
fn tell_on(
    alloc: Global,
    setup: &Setup<'_, '_>,
    steps: &[Step],
    out: &mut String,
) -> io::Result<()> {
    let (meaning, start, have) = (setup.meaning, setup.start, setup.have.as_slice());
    let size = meaning.size as usize;
    let want = setup.wanted()?;
    if have.len() != size || want.len() != size || start.mode4 && meaning.width == Width::Three {
        return Err(ODD.into());
    }
    Ok(put(check(alloc, steps, meaning, &start, have, &want), out)?)
}

/// Puts a verdict, or why there is none.
fn put(verdict: Result<Verdict, CheckFault>, out: &mut String) -> Result<(), AllocError> {
    match verdict {
        Ok(Verdict::Yes) => out.push_str("yes\n"),
        Ok(Verdict::No { step, why }) => put_why(step, why, out),
        Err(CheckFault::Memory) => out.push_str("memory\n"),
    }
}

/// Puts the step at which a chip goes wrong, and why.
fn put_why(step: u64, why: Why, out: &mut String) -> Result<(), AllocError> {
    match why {
        Why::Wrong(why) => writeln!(out, "no at {step} wrong {}", why as u8),
        Why::Differs(address) => writeln!(out, "no at {step} differs {address:08x}"),
    }
}
