//! Rows on what SFDP bytes mean.

use crate::bench::Asked;
use crate::faults::put_fault;
use crate::sfdp::bytes_of;
use nor_base::{Meaning, Part, Switch};
use nor_job::BuildFault;
use nor_sfdp::{SfdpFault, read};
use std::alloc::{AllocError, Global};
use std::io;
use test_samples::meanings::{named, put_instructions, put_kind};
use test_samples::twin_chip;
use test_samples::words::ODD;

/// The chips of `test_samples`.
pub(crate) fn samples(alloc: Global) -> Result<Vec<(String, Meaning)>, AllocError> {
    let twins = [
        ("twin", twin_chip(true, Switch::Plain)),
        ("twin-entered", twin_chip(true, Switch::Absent)),
        ("twin-legacy", twin_chip(false, Switch::Plain)),
        ("twin-legacy-entered", twin_chip(false, Switch::Absent)),
    ];
    let mut all = Vec::new(alloc);
    for (name, meaning) in named().into_iter().chain(twins) {
        all.push((String::from_str(alloc, name)?, meaning))?;
    }
    Ok(all)
}

/// What the words of bytes mean, with `bits=` and `part=`.
pub(crate) fn meaning_of(asked: &Asked<'_, '_>) -> io::Result<Result<Meaning, SfdpFault>> {
    let bits = asked.value("bits").unwrap_or("");
    Ok(read(&bytes_of(asked)?, bits, part_of(asked)?))
}

/// The part that `part=` names.
pub(crate) fn part_of(asked: &Asked<'_, '_>) -> io::Result<Part> {
    match asked.value("part") {
        None => Ok(Part::Generic),
        Some("w25q256jv") => Ok(Part::W25q256jv),
        Some(_) => Err(ODD.into()),
    }
}

/// Tells what bytes mean, or their fault.
pub(crate) fn read_words(asked: &Asked<'_, '_>, out: &mut String) -> io::Result<()> {
    match meaning_of(asked)? {
        Ok(meaning) => Ok(put_meaning(&meaning, out)?),
        Err(fault) => put_fault(out, BuildFault::Sfdp(fault)),
    }
}

/// The line of a chip's name, if it has one, else what it is.
pub(crate) fn put_named(
    asked: &Asked<'_, '_>,
    meaning: &Meaning,
    out: &mut String,
) -> io::Result<()> {
    let this = told(asked.alloc, meaning)?;
    for (name, chip) in &asked.bench.chips {
        if told(asked.alloc, chip)?.as_str() == this.as_str() {
            return Ok(writeln!(out, "chip {name}")?);
        }
    }
    Ok(out.push_str(this.as_str())?)
}

/// All that a chip is, as text.
fn told(alloc: Global, meaning: &Meaning) -> Result<String, AllocError> {
    let mut told = String::new(alloc);
    put_meaning(meaning, &mut told)?;
    Ok(told)
}

/// Says what a chip is.
pub(crate) fn put_meaning(meaning: &Meaning, out: &mut String) -> Result<(), AllocError> {
    let up = if meaning.open_page { " up" } else { "" };
    writeln!(out, "size {}\npage {}{up}", meaning.size, meaning.page)?;
    writeln!(out, "address {:?}", meaning.width)?;
    for kind in 1..5 {
        if let Some(erase) = meaning.erase_kind(kind) {
            put_kind(kind, erase.size, erase, out)?;
        }
    }
    put_instructions(meaning, out)?;
    for region in meaning.regions.iter() {
        writeln!(out, "region {} {}", region.size, region.kinds)?;
    }
    Ok(())
}
