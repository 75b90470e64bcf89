//! The symbols of clocks, and what transactions are to chips.

use crate::bench::Bench;
use crate::samples::{Sample, meaning_of};
use crate::words::{clocks_of, handed};
use nor_base::{Meaning, What, clock_of, sample_of, sampled, symbol_of};
use nor_decode::{Seen, decode, is_verify};
use std::alloc::{AllocError, Global};
use std::fmt::Write;
use std::io;
use test_samples::rows::Row;
use test_samples::words::ODD;

/// All bytes that are symbols, in their order.
pub(crate) fn list_symbols(out: &mut String) -> io::Result<()> {
    for byte in (0..=255u8).filter(|byte| clock_of(*byte).is_some()) {
        out.push(char::from(byte))?;
    }
    Ok(writeln!(out)?)
}

/// The lanes that are driven, their levels and the lanes that are sampled at each symbol's clock,
/// IO3 first.
pub(crate) fn tell_symbols(words: &str, out: &mut String) -> io::Result<()> {
    for byte in words.bytes() {
        let clock = clock_of(byte).ok_or(ODD)?;
        let (symbol, sample) = (char::from(symbol_of(clock)), sample_of(clock));
        let (driven, level, sampled) = (sample.driven, sample.level, sample.sampled);
        writeln!(out, "{symbol} {driven:04b} {level:04b} {sampled:04b}")?;
    }
    Ok(())
}

/// How many bytes clocks sample.
pub(crate) fn count_sampled(words: &str, out: &mut String) -> io::Result<()> {
    Ok(writeln!(out, "{}", sampled(words.as_bytes()))?)
}

/// Whether a verify may have these clocks.
pub(crate) fn tell_verify(alloc: Global, words: &str, out: &mut String) -> io::Result<()> {
    let clocks = clocks_of(alloc, words)?;
    Ok(writeln!(out, "{}", is_verify(clocks.as_slice()))?)
}

/// Says of each transaction what it is to each of some chips.
pub(crate) fn tell_all(bench: &Bench<'_>, row: &Row<'_>, out: &mut String) -> io::Result<()> {
    for line in row.given {
        let clocks = clocks_of(bench.alloc, handed(line)?)?;
        tell_each(bench.all, row.asked, clocks.as_slice(), out)?;
    }
    Ok(())
}

/// Says of clocks what they are to each of some chips, in four-byte mode where a word says so.
fn tell_each(all: &[Sample], words: &str, clocks: &[u8], out: &mut String) -> io::Result<()> {
    let names = words.strip_prefix("mode4 ");
    for name in names.unwrap_or(words).split_whitespace() {
        write!(out, "{name} ")?;
        tell_to(meaning_of(all, name)?, clocks, names.is_some(), out)?;
    }
    Ok(())
}

/// Says of clocks what they are to a chip.
fn tell_to(
    meaning: &Meaning,
    clocks: &[u8],
    mode4: bool,
    out: &mut String,
) -> Result<(), AllocError> {
    match decode(clocks, meaning, mode4) {
        Some(seen) => tell(&seen, out),
        None => out.push_str("None\n"),
    }
}

/// The row of the instruction table, the address, the number of data bytes, the data clocks and the
/// bytes that are sent.
fn tell(seen: &Seen<'_>, out: &mut String) -> Result<(), AllocError> {
    write!(out, "{:?} {:08x} {}", seen.what, seen.address, seen.count())?;
    if !seen.body.is_empty() {
        write!(out, " {}", str::from_utf8(seen.body).unwrap_or(""))?;
    }
    if matches!(seen.what, What::Program | What::QuadProgram) {
        for i in 0..seen.count() {
            write!(out, " {:02x}", seen.byte(i))?;
        }
    }
    writeln!(out)
}
