//! The units of a window.

ghost use Rattle.std.specs.Prelude.{◌≡◌, ◌≤◌, ◌<◌, ◌+◌, ◌^◌, length, IfOk, IfErr, MatchOption};
ghost use Rattle.nor_base.specs.Need.{is_beyond};
ghost use Rattle.nor_erase.specs.Bytes.{IsFirstBeyond, NoneBeyond};
ghost use Rattle.nor_geometry.specs.Plan.{IsWindow, IsPlan, Refuses};

use crate::bytes::next_due;
use crate::tiles::{push_blocks, push_pages};
use nor_base::{Meaning, Strategy};
use nor_geometry::{FAR, PlanFault, PlanUnit, smallest};
use std::alloc::Global;

/// The units that start in a window of a chip, rising: `have` is what it holds from `at` on, `want`
/// what it must hold. A window begins at a multiple of [`window_size`](nor_geometry::window_size).
///
/// `NoErase` and `Unreachable` name the lowest address at fault, by its cause; `Memory` where a
/// growth is refused.
pub fn plan(
    alloc: Global,
    meaning: &Meaning,
    strategy: Strategy,
    at: u32,
    have: &[u8],
    want: &[u8],
) -> Result<Vec<PlanUnit>, PlanFault>
    requires lengths { length have.now ≡ length want.now }
    requires window { IsWindow meaning.now strategy at (length have.now) }
    ensures plan { IfOk result
        (λ units. IsPlan meaning.now strategy at have.now want.now units.items) }
    ensures fault { IfErr result (Refuses meaning.now strategy at have.now want.now) }
{
    meaning.acceptance();
    if let Some(address) = first_beyond(strategy, at, have, want) {
        return Err(PlanFault::Unreachable(address));
    }
    let mut units = Vec::new(alloc);
    let end = at + have.len() as u32;
    let mut low = at;
    let mut high = at;
    while let Some(address) = next_due(meaning, at, have, want, high) {
        let block = match smallest(meaning, strategy, address) {
            Some(block) => block,
            None => return Err(PlanFault::NoErase(address)),
        };
        if block.start > high {
            push_blocks(meaning, strategy, low, high, &mut units)?;
            push_pages(meaning, at, have, want, high, block.start, &mut units)?;
            low = block.start;
        }
        high = block.start + block.size;
    }
    push_blocks(meaning, strategy, low, high, &mut units)?;
    push_pages(meaning, at, have, want, high, end, &mut units)?;
    Ok(units)
}

/// The lowest address that differs where the strategy doesn't reach.
fn first_beyond(strategy: Strategy, at: u32, have: &[u8], want: &[u8]) -> Option<u32>
    requires lengths { length have.now ≡ length want.now }
    requires inside { at + length have.now ≤ 2 ^ 28 }
    requires edge { at < 2 ^ 24 → at + length have.now ≤ 2 ^ 24 }
    ensures { MatchOption result (NoneBeyond strategy have.now want.now at)
        (IsFirstBeyond strategy have.now want.now at) }
{
    if !is_beyond(strategy, at) {
        return None;
    }
    for i in 0..have.len() {
        if have[i] != want[i] {
            return Some(at + i as u32);
        }
    }
    None
}

/// Whether the strategy reaches no address from this one on.
fn is_beyond(strategy: Strategy, at: u32) -> bool
    ensures { result ≡ is_beyond strategy at }
{
    match strategy {
        Strategy::S5 => at >= FAR,
        Strategy::S1 | Strategy::S2 | Strategy::S3 | Strategy::S4 => false,
    }
}
