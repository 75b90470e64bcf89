//! Rows of data on what is read and planned, each with the answer that it is to have.
//!
//! Standard input names files of rows, one a line. A row that has another answer is reported with
//! its file and line, and each file with the number of its rows that are as they say. README.md has
//! the words of the rows.
#![tactic(auto)]

mod bench;
mod clocks;
mod faults;
mod geometry;
mod images;
mod jobs;
mod layouts;
mod meanings;
mod plans;
mod sfdp;
mod sheets;
mod targets;
mod words;

use crate::bench::Bench;
use std::{fs, io};
use test_samples::rows::told;

fn main(rt: HostRuntime) -> io::Result<()> {
    for name in rt.lines(rt.alloc()) {
        let told = told_of(&rt, name?.as_str())?;
        print!(rt; "{told}")?;
    }
    Ok(())
}

/// What the rows of a file come to.
fn told_of(rt: &HostRuntime, name: &str) -> io::Result<String> {
    let text = fs::read_to_string(rt, name)?;
    let mut bench = Bench::new(rt.alloc())?;
    Ok(told(rt.alloc(), name, text.as_str(), &mut bench)?)
}
