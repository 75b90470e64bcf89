//! Transactions with a chip, and scripts played on it.

use crate::bench::Bench;
use crate::setup::Setup;
use crate::steps::steps_of;
use crate::words::{clocks_of, end_with, handed};
use nor_base::{PortFault, sampled};
use nor_chip::{Chip, Port};
use nor_play::{PlayFault, play};
use std::alloc::{AllocError, Global};
use std::fmt::Write;
use std::io;
use test_samples::rows::Row;
use test_samples::words::{ODD, number};

/// Does transactions with the chip that the words say, one a line, and says whether it is settled
/// then.
pub(crate) fn transact(bench: &mut Bench<'_>, row: &Row<'_>, out: &mut String) -> io::Result<()> {
    let alloc = bench.alloc;
    let chip = set_up(bench, row.asked)?;
    for line in row.given {
        do_line(alloc, chip, handed(line)?, out)?;
    }
    Ok(tell_end(chip, out)?)
}

/// Does the transaction of a line, or tells what the chip holds.
fn do_line(alloc: Global, chip: &mut Chip<'_>, line: &str, out: &mut String) -> io::Result<()> {
    match line {
        "held" => Ok(tell_held(chip.content(), out)?),
        line => do_one(alloc, chip, line, out),
    }
}

/// How often the chip failed, if it did, and whether it is settled.
fn tell_end(chip: &Chip<'_>, out: &mut String) -> Result<(), AllocError> {
    if chip.failures() > 0 {
        writeln!(out, "failures {}", chip.failures())?;
    }
    out.push_str(if chip.settled() {
        "settled\n"
    } else {
        "unsettled\n"
    })
}

/// The chip that the words say, ready, or as it is behind the rows before where they are `same`.
fn set_up<'b, 'a>(bench: &'b mut Bench<'a>, words: &str) -> io::Result<&'b mut Chip<'a>> {
    if words != "same" {
        let chip = Setup::of(bench, words)?.into_chip()?;
        bench.chip = Some(chip);
    }
    Ok(bench.chip.as_mut().ok_or(ODD)?)
}

/// The address and the byte of each place that isn't FFh.
fn tell_held(content: &[u8], out: &mut String) -> Result<(), AllocError> {
    for (at, byte) in content.iter().enumerate() {
        if *byte != 0xFF {
            writeln!(out, "held {at:06x} {byte:02x}")?;
        }
    }
    Ok(())
}

/// The array's first 64 KiB, or all of a smaller one.
fn front<'c>(chip: &'c Chip<'_>) -> &'c [u8] {
    let content = chip.content();
    content.get(..65536).unwrap_or(content)
}

/// Does the transaction of a line.
fn do_one(alloc: Global, chip: &mut Chip<'_>, line: &str, out: &mut String) -> io::Result<()> {
    let clocks = clocks_of(alloc, line)?;
    Ok(do_clocks(alloc, chip, clocks.as_slice(), out)?)
}

/// Does a transaction, and says what is read or why it is refused. Then the chip must be as before,
/// and nothing read.
fn do_clocks(
    alloc: Global,
    chip: &mut Chip<'_>,
    clocks: &[u8],
    out: &mut String,
) -> Result<(), AllocError> {
    let was_settled = chip.settled();
    let before = Vec::from_slice(alloc, front(chip))?;
    let mut bytes = vec![in alloc; 0xEEu8; sampled(clocks)]?;
    let done = chip.transact(clocks, bytes.as_mut_slice());
    let same = front(chip) == before.as_slice() && chip.settled() == was_settled;
    tell_done(done, same, bytes.as_slice(), out)
}

/// What is read, or why it is refused and whether the chip and what was there for the bytes stayed
/// the same.
fn tell_done(
    done: Result<(), PortFault>,
    same: bool,
    bytes: &[u8],
    out: &mut String,
) -> Result<(), AllocError> {
    match done {
        Ok(()) if bytes.is_empty() => out.push_str("done\n"),
        Ok(()) => end_with(bytes, out),
        Err(PortFault::Failed) => out.push_str("failed\n"),
        Err(PortFault::Wrong(why)) => {
            let kept = same && bytes.iter().all(|byte| *byte == 0xEE);
            writeln!(out, "{why:?}{}", if kept { "" } else { ", but changed" })
        }
    }
}

/// Plays steps with a limit of turns, on the chip that the words behind it say, and says how many
/// transactions there were, or what went wrong at which step.
pub(crate) fn play_on(bench: &mut Bench<'_>, row: &Row<'_>, out: &mut String) -> io::Result<()> {
    let alloc = bench.alloc;
    let (limit, words) = row.asked.split_once(' ').ok_or(ODD)?;
    let limit = u64::from(number(limit)?);
    if limit == 0 {
        return Err(ODD.into());
    }
    let chip = set_up(bench, words)?;
    let steps = steps_of(alloc, row.given)?;
    Ok(tell_played(play(alloc, steps.as_slice(), chip, limit), out)?)
}

/// How many transactions a play had, or what went wrong at which step.
fn tell_played(played: Result<u128, PlayFault>, out: &mut String) -> Result<(), AllocError> {
    match played {
        Ok(done) => writeln!(out, "ok {done}"),
        Err(PlayFault::Wrong { step, why }) => writeln!(out, "{why:?} at {step}"),
        Err(PlayFault::PortFailed { step }) => writeln!(out, "failed at {step}"),
        Err(PlayFault::Memory) => out.push_str("memory\n"),
    }
}
