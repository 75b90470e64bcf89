//! Legal blocks.

ghost use Rattle.std.specs.Prelude.{◌≡◌, ◌<◌, ◌≤◌, ◌+◌, length, MatchOption};
ghost use Rattle.nor_base.specs.Blocks.{Block as PlannedBlock, is_legal, lies_in_one};
ghost use Rattle.arrayvec.specs.ArrayVec.{array_vec_len};
ghost use Rattle.nor_geometry.specs.Legal.{AreLegalAt, IsReachedAt, IsSmallestAt};
ghost use Rattle.nor_geometry.specs.Takes.{reached_at, with_block};

use crate::block::Block;
use crate::strategies::takes;
use arrayvec::ArrayVec;
use nor_base::{Meaning, Region, Strategy};

/// The strategy's legal blocks that hold the address, rising in size; of those of one size the one
/// of the lowest kind.
///
/// It takes time proportional to the number of regions.
pub fn legal(meaning: &Meaning, strategy: Strategy, at: u32) -> ArrayVec<Block, 4>
    ensures { AreLegalAt meaning.now strategy at result.items }
{
    meaning.acceptance();
    let mut blocks = ArrayVec::new();
    for kind in 1..5 {
        if let Some(block) = block_at(meaning, strategy, kind, at) {
            add(&mut blocks, block);
        }
    }
    blocks
}

/// The smallest of the strategy's legal blocks that hold the address, of those of its size the one
/// of the lowest kind: the first of [`legal`]. `None` where there is none.
pub fn smallest(meaning: &Meaning, strategy: Strategy, at: u32) -> Option<Block>
    ensures { MatchOption result ((b : PlannedBlock) → IsReachedAt meaning.now strategy at b → ⊥)
        (IsSmallestAt meaning.now strategy at) }
{
    legal(meaning, strategy, at).first().copied()
}

/// Whether a legal block of the erase kind starts at the address (bytes from 0 on).
///
/// Kinds count from 1 to 4; 0, a number above 4 and a kind that is absent have no block. A block
/// that would end past 2^32 lies in no region. It takes time proportional to the number of regions.
#[tactic(auto, unfolding(nor_base::specs::Blocks::is_legal))]
pub fn is_legal(meaning: &Meaning, kind: u8, start: u32) -> bool
    ensures { result ≡ is_legal meaning.now kind start }
{
    match meaning.erase_kind(kind) {
        None => false,
        Some(erase) => start % erase.size == 0
            && lies_in_one(meaning.regions.as_slice(), kind, start, erase.size),
    }
}

/// The strategy's legal block of a kind that holds the address, if there is one.
fn block_at(meaning: &Meaning, strategy: Strategy, kind: u8, at: u32) -> Option<Block>
    ensures { result ≡ reached_at meaning.now strategy at kind }
{
    let erase = meaning.erase_kind(kind)?;
    let start = at - at % erase.size;
    if is_legal(meaning, kind, start) && takes(strategy, erase.op4.is_some(), start) {
        Some(Block {
            start,
            size: erase.size,
            kind,
        })
    } else {
        None
    }
}

/// Adds a block at its place in rising order, unless one of its size is there.
fn add(blocks: &mut ArrayVec<Block, 4>, block: Block)
    requires { array_vec_len blocks.old < 4 }
    ensures { blocks.new.items ≡ with_block block blocks.old.items }
{
    for i in 0..blocks.len() {
        let other = blocks[i];
        if block.size < other.size {
            blocks.insert(i, block);
            return;
        }
        if block.size == other.size {
            return;
        }
    }
    blocks.push(block);
}

/// Whether `size` bytes from `start` on lie in one of the regions, the first of which begins at 0,
/// and it allows the kind.
fn lies_in_one(regions: &[Region], kind: u8, start: u32, size: u32) -> bool
    requires { length regions.now ≤ 256 }
    ensures { result ≡ lies_in_one 0 regions.now kind start size }
{
    let end = u64::from(start) + u64::from(size);
    let mut base = 0;
    for region in regions {
        let border = base + u64::from(region.size);
        if base <= u64::from(start) && end <= border && region.allows(kind) {
            return true;
        }
        base = border;
    }
    false
}
