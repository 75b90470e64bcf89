//! Rows of data on symbols, meanings, instructions, scripts, listings, chips, plays and verdicts,
//! each with the answer that it is to have.
//!
//! Standard input names files of rows, one a line. Of each file it is printed how many of its rows
//! are answered as they say, and below the number of its line what is found in place of another
//! row's answer.
#![tactic(auto)]

mod bench;
mod chips;
mod clocks;
mod listings;
mod meanings;
mod samples;
mod scripts;
mod setup;
mod steps;
mod verdicts;
mod words;

use crate::bench::Bench;
use crate::samples::{Sample, samples};
use std::{fs, io};
use test_samples::rows::told;

fn main(rt: HostRuntime) -> io::Result<()> {
    let all = samples(rt.alloc())?;
    for name in rt.lines(rt.alloc()) {
        let told = told_of(&rt, all.as_slice(), name?.as_str())?;
        print!(rt; "{told}")?;
    }
    Ok(())
}

/// What the rows of a file come to.
fn told_of(rt: &HostRuntime, all: &[Sample], name: &str) -> io::Result<String> {
    let text = fs::read_to_string(rt, name)?;
    let mut bench = Bench::new(rt.alloc(), all);
    Ok(told(rt.alloc(), name, text.as_str(), &mut bench)?)
}
