//! Plans with little memory.

use crate::builds::ONE_PROGRAM;
use crate::devices::{BLANK, Built, Work, content, failing, inputs, roomy_writer, run_work};
use crate::same::{holds, same};
use norprog::BuildFault;
use std::alloc::{AllocError, Global};
use std::test::Fail;
use test_samples::texts::IMAGE;

/// The line of the program of one byte at address 0.
pub(crate) const ONE_LINE: &str = "program 00000000 1\n";

/// The plan of one byte on a uniform chip, over a writer that takes so many bytes at a call and
/// fails at a call.
pub(crate) fn one_byte_plan(
    alloc: Global,
    most: usize,
    fails_at: usize,
) -> Result<Built<'static>, AllocError> {
    let mut lines = roomy_writer(alloc, 128, most)?;
    lines.odd = failing(fails_at);
    let reader = content(&BLANK, 8192, 0);
    Ok(run_work(alloc, Work::Plan, &inputs(IMAGE), reader, 8192, lines))
}

#[test]
fn tells_the_one_byte_job(rt: HostRuntime) -> Result<(), Fail> {
    let told = one_byte_plan(rt.alloc(), usize::MAX, 0)?;
    holds(&rt, "the report", told.answer == Ok(ONE_PROGRAM));
    let held = told.writer.held.as_slice();
    holds(&rt, "the line", held == ONE_LINE.as_bytes());
    Ok(())
}

/// Where a growth is refused, which `tools/refused-growths` does, what was written is a front of
/// the line.
#[test]
fn a_refused_growth_is_memory(rt: HostRuntime) {
    if let Ok(told) = one_byte_plan(rt.alloc(), usize::MAX, 0) {
        let answer = told.answer;
        let held = told.writer.held.as_slice();
        match answer {
            Ok(report) => {
                holds(&rt, "the report", report == ONE_PROGRAM);
                holds(&rt, "the line", held == ONE_LINE.as_bytes());
            }
            Err(fault) => {
                same(&rt, "refused", fault, BuildFault::Memory);
                holds(&rt, "a front", ONE_LINE.as_bytes().starts_with(held));
            }
        }
    }
}
