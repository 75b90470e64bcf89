//! The erased blocks that a map outlines.

use crate::part::Part;
use crate::part::Part::{Address, Own, Size};
use nor_outline::PlanLine;
use std::alloc::AllocError;

/// A block that is erased.
#[derive(Clone, Copy)]
pub(crate) struct Block {
    /// Its first address.
    pub start: u32,
    /// Its bytes.
    pub size: u32,
    /// The lowest address that it is erased for, where the plan gives one.
    pub cause: Option<u32>,
}

impl Block {
    /// Its size and its address, and the address that it is erased for.
    pub fn told(&self) -> [Part<'static>; 5] {
        let (words, cause) = match self.cause {
            Some(cause) => (Own(b" for "), Address(cause)),
            None => (Own(b""), Own(b"")),
        };
        [
            Size(u64::from(self.size)),
            Own(b" at "),
            Address(self.start),
            words,
            cause,
        ]
    }
}

/// Keeps the blocks of the next lines, of those that begin in one cell one after another the first.
pub(crate) fn keep_blocks(
    blocks: &mut Vec<Block>,
    cell: u32,
    lines: &[PlanLine],
) -> Result<(), AllocError> {
    for line in lines {
        match *line {
            PlanLine::Erase { start, size, .. } => keep(blocks, cell, start, size)?,
            PlanLine::Because { start, cause } => explain(blocks, start, cause),
            PlanLine::Program { .. } => {}
        }
    }
    Ok(())
}

/// Keeps a block, if the last one doesn't begin in its cell.
fn keep(blocks: &mut Vec<Block>, cell: u32, start: u32, size: u32) -> Result<(), AllocError> {
    let last = blocks.last().map(|block| block.start / cell.max(1));
    if last == Some(start / cell.max(1)) {
        return Ok(());
    }
    let block = Block {
        start,
        size,
        cause: None,
    };
    blocks.push(block)?;
    Ok(())
}

/// Gives the last block its cause, if it has none yet and the smallest block at `start` is in it.
fn explain(blocks: &mut Vec<Block>, start: u32, cause: u32) {
    if let Some(block) = blocks.last_mut() {
        if block.cause.is_none() && block.start <= start && start - block.start < block.size {
            block.cause = Some(cause);
        }
    }
}
