//! The blocks of a run, and the pages of a gap.

ghost use Rattle.std.specs.Prelude.{◌≡◌, ◌≤◌, ◌+◌, ◌-◌, ◌%◌, ◌==◌, ◌&&◌, length, nat_le, IfOk};
ghost use Rattle.std.specs.Prelude.{MatchOption, ◌/◌, ◌++◌, flat_map};
ghost use Rattle.nor_erase.specs.Tiles.{IsLargestAt, NoneFits, IsTiling, AddsBlocks, differs_from};
ghost use Rattle.nor_erase.specs.Tiles.{page_if};
ghost use Rattle.nor_base.specs.Units.{pages};

use nor_base::{Meaning, Strategy};
use nor_geometry::{Block, PlanUnit, legal};
use std::alloc::AllocError;

/// Appends the blocks that tile a stretch from its low end: each the largest of the strategy that
/// starts there and ends in the stretch.
pub(crate) fn push_blocks(
    meaning: &Meaning,
    strategy: Strategy,
    low: u32,
    high: u32,
    units: &mut Vec<PlanUnit>,
) -> Result<(), AllocError>
    ensures { IfOk result
        (λ _. AddsBlocks (IsTiling meaning.now strategy low high) units.old.items
        units.new.items) }
{
    let mut start = low;
    while let Some(block) = largest(meaning, strategy, start, high) {
        units.push(PlanUnit::Block(block))?;
        start += block.size;
    }
    Ok(())
}

/// The largest of the strategy's blocks that start at an address and end by another; of those of
/// its size the one of the lowest kind.
fn largest(meaning: &Meaning, strategy: Strategy, start: u32, end: u32) -> Option<Block>
    ensures { MatchOption result (NoneFits meaning.now strategy start end)
        (IsLargestAt meaning.now strategy start end) }
{
    meaning.acceptance();
    let mut best = None;
    for block in legal(meaning, strategy, start).as_slice() {
        if fits(block, start, end) {
            best = Some(*block);
        }
    }
    best
}

/// Appends the pages of a stretch that differ.
pub(crate) fn push_pages(
    meaning: &Meaning,
    at: u32,
    have: &[u8],
    want: &[u8],
    low: u32,
    high: u32,
    units: &mut Vec<PlanUnit>,
) -> Result<(), AllocError>
    requires lengths { length have.now ≡ length want.now }
    requires inside { at + length have.now ≤ meaning.now.size }
    requires between { (at ≤ low)
        × (low ≤ high)
        × (high ≤ at + length have.now) }
    requires low_page { low % meaning.now.page ≡ 0 }
    requires high_page { high % meaning.now.page ≡ 0 }
    ensures { IfOk result
        (λ _. units.new.items ≡ units.old.items
        ++ flat_map (page_if have.now want.now at meaning.now.page)
        (pages meaning.now.page low ((high - low) / meaning.now.page))) }
{
    meaning.acceptance();
    let mut start = low;
    while start < high {
        if differs_from(have, want, (start - at) as usize, meaning.page as usize) {
            units.push(PlanUnit::Page { start })?;
        }
        start += meaning.page;
    }
    Ok(())
}

/// Whether some of so many bytes from a place on differ.
fn differs_from(have: &[u8], want: &[u8], from: usize, count: usize) -> bool
    requires lengths { length have.now ≡ length want.now }
    requires inside { from + count ≤ length have.now }
    ensures { result ≡ differs_from have.now want.now from count }
{
    have[from..from + count] != want[from..from + count]
}

/// Whether a block starts at an address and ends by another.
fn fits(block: &Block, start: u32, end: u32) -> bool
    ensures { result ≡ ((block.now.start == start)
        && nat_le (block.now.start + block.now.size) end) }
{
    block.start == start && u64::from(block.start) + u64::from(block.size) <= u64::from(end)
}
