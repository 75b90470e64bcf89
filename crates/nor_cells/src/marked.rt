//! The stretches of marked cells.

ghost use Rattle.std.specs.Prelude.{ℕ, ◌≤◌, ◌<◌, ◌+◌, ◌*◌, ◌^◌, length, MatchOption};
ghost use Rattle.nor_cells.specs.Marks.{IsMarked, IsNextMarked, AreMarkedFrom};

use crate::touched::CELL;

/// The next addresses of marked cells from one on that lie side by side, at most so many: the
/// first, and how many they are. None where there are no more.
pub fn next_piece(marks: &[bool], from: usize, most: usize) -> Option<(usize, usize)>
    requires some { 0 < most }
    requires most { most < 2 ^ 24 }
    requires few { 256 * length marks.now < 2 ^ 32 }
    ensures { MatchOption result ((a : ℕ) → from ≤ a → IsMarked marks.now a → ⊥)
        (λ piece. IsNextMarked marks.now from piece.0
        × AreMarkedFrom marks.now piece.0 most piece.1) }
{
    match next_marked(marks, from) {
        Some(start) => Some((start, marked_len(marks, start, most))),
        None => None,
    }
}

/// The first address of a marked cell from one on.
fn next_marked(marks: &[bool], from: usize) -> Option<usize>
    requires { 256 * length marks.now < 2 ^ 32 }
    ensures { MatchOption result ((a : ℕ) → from ≤ a → IsMarked marks.now a → ⊥)
        (IsNextMarked marks.now from) }
{
    for c in from / CELL..marks.len() {
        if marks[c] {
            return Some(from.max(c * CELL));
        }
    }
    None
}

/// How many addresses from one on lie in marked cells, at most so many.
fn marked_len(marks: &[bool], start: usize, most: usize) -> usize
    requires is { IsMarked marks.now start }
    requires some { 0 < most }
    requires most { most < 2 ^ 24 }
    requires few { 256 * length marks.now < 2 ^ 32 }
    ensures { AreMarkedFrom marks.now start most result }
{
    let mut end = start / CELL + 1;
    while end < marks.len() && marks[end] && end * CELL < start + most {
        end += 1;
    }
    (end * CELL - start).min(most)
}
