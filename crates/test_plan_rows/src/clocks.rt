//! Rows on the instructions of operations, to their clocks.

use crate::bench::Asked;
use crate::geometry::{block_of, strategy_of};
use crate::words::{bytes, line_words};
use nor_base::{Meaning, Start, Strategy};
use nor_frames::clocks_into;
use nor_geometry::{Block, strategy};
use nor_select::{Instr, Lowerer, Op, SelectFault, lower};
use std::alloc::Global;
use std::io;
use test_samples::words::{ODD, hexadecimal};

/// An operation as a line says it: `erase START SIZE KIND`, `program AT BYTES` or `read AT BYTES`.
#[derive(Drop)]
enum Line {
    Erase(Block),
    Program { at: u32, bytes: Vec<u8> },
    Read { at: u32, bytes: Vec<u8> },
}

impl Line {
    /// The operation of a line that is handed over.
    fn of(alloc: Global, line: &str) -> io::Result<Line> {
        match line_words(alloc, line)?.as_slice() {
            ["erase", start, size, kind] => Ok(Line::Erase(block_of(start, size, kind)?)),
            ["program", at, digits] => Line::program(alloc, at, digits),
            ["read", at, digits] => Line::read(alloc, at, digits),
            _ => Err(ODD.into()),
        }
    }

    /// The program of bytes at an address.
    fn program(alloc: Global, at: &str, digits: &str) -> io::Result<Line> {
        Ok(Line::Program {
            at: hexadecimal(at)?,
            bytes: bytes(alloc, digits)?,
        })
    }

    /// The read of bytes at an address.
    fn read(alloc: Global, at: &str, digits: &str) -> io::Result<Line> {
        Ok(Line::Read {
            at: hexadecimal(at)?,
            bytes: bytes(alloc, digits)?,
        })
    }

    /// The same, with the bytes lent.
    fn op(&self) -> Op<'_> {
        match self {
            Line::Erase(block) => Op::Erase(*block),
            Line::Program { at, bytes } => Op::Program { at: *at, bytes },
            Line::Read { at, bytes } => Op::Read { at: *at, bytes },
        }
    }
}

/// The operations of the lines that are handed over.
fn lines_of(asked: &Asked<'_, '_>) -> io::Result<Vec<Line>> {
    let mut all = Vec::new(asked.alloc);
    for line in asked.given {
        all.push(Line::of(asked.alloc, line)?)?;
    }
    Ok(all)
}

/// How the chip begins.
fn start_of(asked: &Asked<'_, '_>) -> Start {
    Start {
        mode4: asked.has("mode4"),
        quad: asked.has("quad"),
    }
}

/// The clocks of operations on a chip, by its own strategy or the one that `by=` names.
pub(crate) fn all_at_once(asked: &Asked<'_, '_>, out: &mut String) -> io::Result<()> {
    let (chip, start) = (asked.chip()?, start_of(asked));
    let by = strategy_by(asked, chip, &start)?;
    let lines = lines_of(asked)?;
    let ops: Vec<Op<'_>> = lines.iter().map(Line::op).collect(asked.alloc)?;
    put_clocks(asked, lower(asked.alloc, &ops, chip, &start, by), out)
}

/// The strategy that `by=` names, or a chip's own.
fn strategy_by(asked: &Asked<'_, '_>, chip: &Meaning, start: &Start) -> io::Result<Strategy> {
    match asked.value("by") {
        Some(word) => strategy_of(word),
        None => Ok(strategy(chip, start)),
    }
}

/// The same by the chip's own strategy in parts, one of each line, and before each of them one of
/// no operation.
pub(crate) fn in_parts(asked: &Asked<'_, '_>, out: &mut String) -> io::Result<()> {
    let (chip, start) = (asked.chip()?, start_of(asked));
    let mut lowerer = Lowerer::new(chip, &start, strategy(chip, &start));
    for line in lines_of(asked)?.iter() {
        put_part(asked, &mut lowerer, line, out)?;
    }
    out.push_str("close\n")?;
    put_clocks(asked, lowerer.close(asked.alloc), out)
}

/// The clocks of no operation, and then those of the operation of a line.
fn put_part(
    asked: &Asked<'_, '_>,
    lowerer: &mut Lowerer<'_>,
    line: &Line,
    out: &mut String,
) -> io::Result<()> {
    put_clocks(asked, lowerer.more(asked.alloc, &[]), out)?;
    out.push_str("part\n")?;
    put_clocks(asked, lowerer.more(asked.alloc, &[line.op()]), out)
}

/// The clocks of instructions, each on a line.
fn put_clocks(
    asked: &Asked<'_, '_>,
    lowered: Result<Vec<Instr<'_>>, SelectFault>,
    out: &mut String,
) -> io::Result<()> {
    for instr in lowered.ok().ok_or(ODD)?.iter() {
        let mut clocks = Vec::new(asked.alloc);
        if instr.width > 4 || clocks_into(instr, &mut clocks).is_err() {
            return Err(ODD.into());
        }
        clocks.push(b'\n')?;
        out.push_str(str::from_utf8(&clocks).ok().ok_or(ODD)?)?;
    }
    Ok(())
}
