//! Rows on what is erased and programmed.

use crate::bench::Asked;
use crate::faults::put_fault;
use crate::geometry::{block_of, put_block};
use crate::words::line_words;
use nor_base::{IntoWrite, Start};
use nor_erase::plan;
use nor_geometry::{PlanFault, PlanUnit, strategy, window_size};
use nor_job::BuildFault;
use nor_outline::{PlanLine, window_lines, write_lines};
use nor_pages::{Run, split};
use nor_steps::StepsFault;
use std::alloc::{AllocError, Global};
use std::io;
use test_samples::words::{ODD, byte, hexadecimal};

/// In three-byte mode, without the quad setting.
const PLAIN: Start = Start {
    mode4: false,
    quad: false,
};

/// What a part of a chip holds, and what it is to hold.
#[derive(Drop)]
struct Part {
    have: Vec<u8>,
    want: Vec<u8>,
}

impl Part {
    /// So many bytes that are FFh and stay so, but for the changes of lines that are handed over.
    fn of(asked: &Asked<'_, '_>, count: u32) -> io::Result<Part> {
        let mut part = Part {
            have: vec![in asked.alloc; 0xFFu8; count as usize]?,
            want: vec![in asked.alloc; 0xFFu8; count as usize]?,
        };
        for line in asked.given {
            part.take(line_words(asked.alloc, line)?.as_slice())?;
        }
        Ok(part)
    }

    /// The change that the words of a line say; without a distance the bytes stand side by side.
    fn take(&mut self, words: &[&str]) -> io::Result<()> {
        match words {
            [from, count, old, new] => self.change(from, count, "1", old, new),
            [from, count, apart, old, new] => self.change(from, count, apart, old, new),
            _ => Err(ODD.into()),
        }
    }

    /// So many bytes from a place on, each so far from the one before, hold a byte and are to hold
    /// another.
    fn change(
        &mut self,
        from: &str,
        count: &str,
        apart: &str,
        old: &str,
        new: &str,
    ) -> io::Result<()> {
        let (mut at, apart) = (hexadecimal(from)? as usize, hexadecimal(apart)? as usize);
        let (old, new) = (byte(old)?, byte(new)?);
        for _ in 0..hexadecimal(count)? {
            *self.have.get_mut(at).ok_or(ODD)? = old;
            *self.want.get_mut(at).ok_or(ODD)? = new;
            at = at.saturating_add(apart);
        }
        Ok(())
    }
}

/// Tells the plan of the window at an address: its units, or with `is_text` its lines.
pub(crate) fn window(asked: &Asked<'_, '_>, is_text: bool, out: &mut String) -> io::Result<()> {
    let (chip, at) = (asked.chip()?, asked.hexadecimal(2)?);
    let window = window_size(chip);
    if at >= chip.size || at % window != 0 {
        return Err(ODD.into());
    }
    let rest = chip.size - at;
    let count = if rest < window { rest } else { window };
    let Part { have, want } = Part::of(asked, count)?;
    if have.len() != count as usize || want.len() != count as usize {
        return Err(ODD.into());
    }
    let by = strategy(chip, &PLAIN);
    if !is_text {
        return put_units(plan(asked.alloc, chip, by, at, &have, &want), out);
    }
    let planned = window_lines(asked.alloc, chip, by, at, &have, &want);
    put_lines(asked.alloc, planned, out)
}

/// Puts the units of a window, or why there are none.
fn put_units(planned: Result<Vec<PlanUnit>, PlanFault>, out: &mut String) -> io::Result<()> {
    let units = match planned {
        Ok(units) => units,
        Err(fault) => return put_fault(out, BuildFault::Plan(fault)),
    };
    for unit in units.iter() {
        match unit {
            PlanUnit::Block(block) => put_block(*block, out)?,
            PlanUnit::Page { start } => writeln!(out, "page {start:08x}")?,
        }
    }
    Ok(())
}

/// Puts the lines of a window, or why there are none.
fn put_lines(
    alloc: Global,
    planned: Result<Vec<PlanLine>, StepsFault>,
    out: &mut String,
) -> io::Result<()> {
    let lines = match planned {
        Ok(lines) => lines,
        Err(StepsFault::Plan(fault)) => return put_fault(out, BuildFault::Plan(fault)),
        Err(_) => return Err(ODD.into()),
    };
    let mut text = IntoWrite::new(Vec::new(alloc));
    write_lines(&lines, &mut text).ok().ok_or(ODD)?;
    out.push_str(str::from_utf8(&text.into_inner()).ok().ok_or(ODD)?)?;
    Ok(())
}

/// Tells the runs of a unit: `page START`, or `block START SIZE KIND`.
pub(crate) fn runs(asked: &Asked<'_, '_>, out: &mut String) -> io::Result<()> {
    let chip = asked.chip()?;
    let unit = unit_of(asked.words.get(2..).unwrap_or(&[]))?;
    let (start, count) = match unit {
        PlanUnit::Block(block) => (block.start, block.size),
        PlanUnit::Page { start } => (start, chip.page),
    };
    let Part { have, want } = Part::of(asked, count)?;
    if count % chip.page != 0 || start >= chip.size || count > chip.size - start {
        return Err(ODD.into());
    }
    if have.len() != count as usize || want.len() != count as usize {
        return Err(ODD.into());
    }
    let runs = split(asked.alloc, chip, &unit, &have, &want);
    Ok(put_runs(&runs.ok().ok_or(ODD)?, out)?)
}

/// Puts the address and the number of bytes of each run.
fn put_runs(runs: &[Run], out: &mut String) -> Result<(), AllocError> {
    for run in runs {
        writeln!(out, "{:08x} {}", run.at, run.len)?;
    }
    Ok(())
}

/// The unit that the words behind a chip's name say.
fn unit_of(words: &[&str]) -> io::Result<PlanUnit> {
    match words {
        ["page", start] => Ok(PlanUnit::Page {
            start: hexadecimal(start)?,
        }),
        ["block", start, size, kind] => Ok(PlanUnit::Block(block_of(start, size, kind)?)),
        _ => Err(ODD.into()),
    }
}
