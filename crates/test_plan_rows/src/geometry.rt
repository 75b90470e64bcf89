//! Rows on how a chip is driven, and on its blocks.

use crate::bench::Asked;
use nor_base::{Meaning, Start, Strategy};
use nor_geometry::{Block, is_legal, legal, smallest, strategy, window_size};
use std::alloc::AllocError;
use std::io;
use test_samples::words::{ODD, byte, hexadecimal};

/// The strategy of a name.
pub(crate) fn strategy_of(word: &str) -> io::Result<Strategy> {
    Ok(match word {
        "S1" => Strategy::S1,
        "S2" => Strategy::S2,
        "S3" => Strategy::S3,
        "S4" => Strategy::S4,
        "S5" => Strategy::S5,
        _ => return Err(ODD.into()),
    })
}

/// The strategies of a chip, first in three-byte and then in four-byte mode, each without and with
/// the quad setting; and its window.
pub(crate) fn strategies(asked: &Asked<'_, '_>, out: &mut String) -> io::Result<()> {
    let chip = asked.chip()?;
    for (mode4, quad) in [(false, false), (false, true), (true, false), (true, true)] {
        write!(out, "{:?} ", strategy(chip, &Start { mode4, quad }))?;
    }
    Ok(writeln!(out, "window {}", window_size(chip))?)
}

/// The blocks of a chip that a strategy takes at an address: start, bytes and kind of each.
pub(crate) fn blocks(asked: &Asked<'_, '_>, out: &mut String) -> io::Result<()> {
    let (chip, by, at) = (
        asked.chip()?,
        strategy_of(asked.word(2)?)?,
        asked.hexadecimal(3)?,
    );
    let blocks = legal(chip, by, at);
    for block in blocks.as_slice() {
        put_legal(chip, *block, out)?;
    }
    Ok(put_first(blocks.first(), smallest(chip, by, at), out)?)
}

/// Puts a block, and says it where it isn't legal.
fn put_legal(chip: &Meaning, block: Block, out: &mut String) -> Result<(), AllocError> {
    put_block(block, out)?;
    if !is_legal(chip, block.kind, block.start) {
        out.push_str("that isn't legal\n")?;
    }
    Ok(())
}

/// Says it where the first block isn't the smallest, and where there is none.
fn put_first(
    first: Option<&Block>,
    smallest: Option<Block>,
    out: &mut String,
) -> Result<(), AllocError> {
    let place = |block: &Block| (block.kind, block.start, block.size);
    if smallest.as_ref().map(place) != first.map(place) {
        out.push_str("of which the first isn't the smallest\n")?;
    }
    if first.is_none() {
        out.push_str("none\n")?;
    }
    Ok(())
}

/// Start, bytes and kind of a block.
pub(crate) fn put_block(block: Block, out: &mut String) -> Result<(), AllocError> {
    let Block { start, size, kind } = block;
    writeln!(out, "block {start:08x} {size:x} {kind}")
}

/// The block of a start, a size and a kind.
pub(crate) fn block_of(start: &str, size: &str, kind: &str) -> io::Result<Block> {
    Ok(Block {
        start: hexadecimal(start)?,
        size: hexadecimal(size)?,
        kind: byte(kind)?,
    })
}
