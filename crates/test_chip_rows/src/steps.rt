//! The steps of rows.

use crate::words::{bytes_of, clocks_of, handed};
use nor_base::{Bytes, Step};
use std::alloc::Global;
use std::io;
use test_samples::words::ODD;

/// The steps of lines that are handed over.
pub(crate) fn steps_of(alloc: Global, given: &[&str]) -> io::Result<Vec<Step>> {
    let mut steps = Vec::new(alloc);
    for line in given {
        steps.push(step_of(alloc, handed(line)?)?)?;
    }
    Ok(steps)
}

/// The step of a line: a letter (`x` sent, `p` polled, `v` verified) and the clocks of a
/// transaction; of a `v`, behind a second `|`, the bytes that it expects.
fn step_of(alloc: Global, line: &str) -> io::Result<Step> {
    let (letter, words) = line.split_once(' ').unwrap_or((line, ""));
    let (transaction, expect) = match letter {
        "v" => words.rsplit_once('|').ok_or(ODD)?,
        _ => (words, ""),
    };
    let clocks = Bytes::new(clocks_of(alloc, transaction)?);
    match letter {
        "x" => Ok(Step::Send { clocks }),
        "p" => Ok(Step::Poll { clocks }),
        "v" => {
            let expect = Bytes::new(bytes_of(alloc, expect)?);
            Ok(Step::Verify { clocks, expect })
        }
        _ => Err(ODD.into()),
    }
}
