//! A chip on which work is resumed, which has to be the one of the older dump.

ghost use Rattle.std.specs.Prelude.{◌≡◌, ◌*◌, ◌^◌, ◌<◌, ℕ, true, false, length};
ghost use Rattle.norprog_flash.specs.Resumed.{window, IsFine, IsKept, Keeps, KeepsAll};
ghost use Rattle.norprog_flash.specs.Resumed.{IsOfDump, IsOfAnother, Loses, LosesAt, LosesOne};

use nor_base::{Meaning, Strategy};
use nor_geometry::smallest;
use norprog_read::wide_window;

/// Bytes of the largest page.
const PAGE: u32 = 4096;

/// Each block begins at a multiple of so many bytes.
const CELL: u32 = 256;

/// How a chip is compared with an older dump.
#[derive(Clone, Copy)]
struct Grain {
    /// Bytes of a piece.
    size: usize,
    /// Whether bytes of it may have become FFh.
    erased: bool,
}

/// Whether a chip may be the one of an older dump: in each window and each block where the goal is
/// the dump's it has to hold the dump. In a block it may also hold FFh, since a chip may erase more
/// at once than it is said to.
pub(crate) fn is_of_dump(meaning: &Meaning, held: &[u8], old: &[u8], goal: &[u8]) -> bool
    ensures kept { result ≡ true → IsOfDump meaning.now held.now old.now goal.now }
    ensures other { result ≡ false → IsOfAnother meaning.now held.now old.now goal.now }
{
    let windows = Grain {
        size: wide_window(meaning) as usize,
        erased: false,
    };
    let blocks = Grain {
        size: widest_block(meaning) as usize,
        erased: true,
    };
    are_kept(windows, held, old, goal) && are_kept(blocks, held, old, goal)
}

/// Bytes that one changed byte lets work touch at most: of a page, or of the smallest block at some
/// address.
fn widest_block(meaning: &Meaning) -> u32
    ensures { IsFine meaning.now result }
{
    let mut size = PAGE;
    for cell in 0..meaning.size / CELL {
        if let Some(block) = smallest(meaning, Strategy::S1, cell * CELL) {
            size = size.max(block.size);
        }
    }
    size
}

/// Whether each piece is kept.
fn are_kept(grain: Grain, held: &[u8], old: &[u8], goal: &[u8]) -> bool
    requires some { 0 < grain.size }
    requires most { grain.size < 2 ^ 32 }
    ensures kept { result ≡ true → KeepsAll grain held.now old.now goal.now }
    ensures other { result ≡ false → LosesOne grain held.now old.now goal.now }
{
    for number in 0..held.len().div_ceil(grain.size) {
        if !is_kept(grain, held, old, goal, number) {
            return false;
        }
    }
    true
}

/// Whether this piece is.
fn is_kept(grain: Grain, held: &[u8], old: &[u8], goal: &[u8], number: usize) -> bool
    requires most { grain.size < 2 ^ 32 }
    requires fits { number * grain.size < 2 ^ 63 }
    ensures kept { result ≡ true → Keeps grain held.now old.now goal.now number }
    ensures other { result ≡ false → Loses grain held.now old.now goal.now number }
{
    let was = window(grain.size, old, number);
    window(grain.size, goal, number) != was
        || has_kept(grain.erased, window(grain.size, held, number), was)
}

/// Whether each byte of a piece is the dump's, or FFh where that is so of erased ones.
fn has_kept(erased: bool, held: &[u8], old: &[u8]) -> bool
    ensures kept { result ≡ true
        → (at : ℕ) → at < length held.now → IsKept erased held.now old.now at }
    ensures other { result ≡ false → LosesAt erased held.now old.now }
{
    for at in 0..held.len() {
        let is_old = at < old.len() && held[at] == old[at];
        if !is_old && !(erased && held[at] == 0xff) {
            return false;
        }
    }
    true
}

/// The bytes of a piece, as many as there are.
fn window(size: usize, bytes: &[u8], number: usize) -> &[u8]
    requires most { size < 2 ^ 32 }
    requires fits { number * size < 2 ^ 63 }
    ensures { result.now ≡ window size bytes.now number }
{
    let start = number * size;
    if bytes.len() < start {
        return &[];
    }
    &bytes[start..bytes.len().min(start + size)]
}
