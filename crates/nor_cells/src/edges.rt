//! The first and the last byte of a content that aren't blank.

ghost use Rattle.std.specs.Prelude.{◌≤◌, ◌^◌, length, MatchOption};
ghost use Rattle.nor_cells.specs.Edges.{IsFirstHeld, IsLastHeld, IsBlank, IsEdge};
ghost use Rattle.nor_cells.specs.Marks.{MarkedBy};

use crate::touched::mark;

/// What an erased byte holds.
pub(crate) const BLANK: u8 = 0xFF;

/// Marks the cells of the first and the last byte of a content that aren't FFh.
pub(crate) fn mark_edges(marks: &mut [bool], content: &[u8])
    requires { length content.now ≤ 2 ^ 32 }
    ensures { MarkedBy (IsEdge content.now) marks.old marks.new }
{
    if let Some(first) = first_held(content) {
        mark(marks, first, first + 1);
    }
    if let Some(last) = last_held(content) {
        mark(marks, last, last + 1);
    }
}

/// The lowest address whose byte isn't FFh.
pub fn first_held(content: &[u8]) -> Option<usize>
    ensures { MatchOption result (IsBlank content.now) (IsFirstHeld content.now) }
{
    for at in 0..content.len() {
        if content[at] != BLANK {
            return Some(at);
        }
    }
    None
}

/// The highest address whose byte isn't FFh.
fn last_held(content: &[u8]) -> Option<usize>
    ensures { MatchOption result (IsBlank content.now) (IsLastHeld content.now) }
{
    let mut end = content.len();
    while end > 0 {
        if content[end - 1] != BLANK {
            return Some(end - 1);
        }
        end -= 1;
    }
    None
}
