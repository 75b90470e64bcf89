//! The bytes by which a smaller chip shows, whose addresses wrap.

ghost use Rattle.std.specs.Prelude.{◌≡◌, ℕ, ◌+◌, ◌^◌, ◌<◌, ◌≤◌, length, MatchOption};
ghost use Rattle.nor_cells.specs.Marks.{MarkedBy};
ghost use Rattle.nor_cells.specs.Wrap.{IsFirstUnlike, Repeats, TellsApart, ShowsWrap};

use crate::touched::mark;

/// Marks, for each smaller size from 4 KiB on that is a power of two, the cells of the first two
/// bytes of a content that lie so far apart and aren't alike. A chip of that size gives the same
/// byte at both addresses.
pub fn mark_wraps(marks: &mut [bool], content: &[u8])
    requires small { length content.now ≤ 2 ^ 32 }
    ensures { MarkedBy (ShowsWrap content.now) marks.old marks.new }
{
    for k in 12..32u32 {
        mark_wrap(marks, content, 1 << k);
    }
}

/// Marks the cells of the first two bytes that lie so far apart and aren't alike.
fn mark_wrap(marks: &mut [bool], content: &[u8], far: usize)
    requires small { length content.now ≤ 2 ^ 32 }
    requires near { far ≤ 2 ^ 32 }
    ensures { MarkedBy (TellsApart content.now far) marks.old marks.new }
{
    if let Some(at) = first_unlike(content, far) {
        mark(marks, at, at + 1);
        mark(marks, at + far, at + far + 1);
    }
}

/// The lowest address whose byte isn't the one so far on.
fn first_unlike(content: &[u8], far: usize) -> Option<usize>
    requires near { far ≤ 2 ^ 32 }
    ensures { MatchOption result (Repeats content.now far) (IsFirstUnlike content.now far) }
{
    if content.len() <= far {
        return None;
    }
    for at in 0..content.len() - far {
        if content[at] != content[at + far] {
            return Some(at);
        }
    }
    None
}
