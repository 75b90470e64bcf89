//! Which part of a chip is read.

ghost use Rattle.std.specs.Prelude.{◌≡◌, ◌≤◌, ◌<◌, ◌^◌};
ghost use Rattle.norprog_read.specs.Span.{windows_around, IsPart, IsWide};

use crate::asked::{Ask, Span};
use nor_base::Meaning;
use nor_geometry::window_size;

/// The least window: a chip may erase more at once than it is said to.
const LEAST: u32 = 1 << 16;

/// Bytes of a window: as many as the largest erase of the chip changes, and 64 KiB at least.
pub fn wide_window(meaning: &Meaning) -> u32
    ensures size { IsWide meaning.now result }
    ensures some { 0 < result }
    ensures most { result ≤ 2 ^ 24 }
{
    window_size(meaning).max(LEAST)
}

/// The part of a chip's content that is asked for.
pub(crate) fn part_of(ask: &Ask<'_>, meaning: &Meaning) -> Span
    ensures part { IsPart ask.now meaning.now result }
    ensures within { (result.low ≤ result.high) × (result.high ≤ meaning.now.size) }
{
    let size = meaning.size as usize;
    if !ask.content {
        return Span { low: 0, high: 0 };
    }
    match ask.near {
        None => Span { low: 0, high: size },
        Some(near) => windows_around(near, wide_window(meaning) as usize, size),
    }
}

/// The windows around some addresses, as far as a chip of so many bytes reaches.
fn windows_around(near: Span, window: usize, size: usize) -> Span
    requires window { (0 < window) × (window ≤ 2 ^ 24) }
    requires size { size ≤ 2 ^ 32 }
    ensures is { result ≡ windows_around near window size }
    ensures within { (result.low ≤ result.high) × (result.high ≤ size) }
{
    let whole = (near.high.min(size) + (window - 1)) / window * window;
    let high = whole.min(size);
    let low = near.low / window * window;
    Span {
        low: low.min(high),
        high,
    }
}
