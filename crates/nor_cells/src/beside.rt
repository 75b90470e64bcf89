//! The held cells beside those that steps touch.

ghost use Rattle.std.specs.Prelude.{◌≡◌, ◌↔◌, ℕ, ◌+◌, ◌*◌, ◌/◌, ◌^◌, ◌<◌, ◌≤◌, true, false, length};
ghost use Rattle.std.specs.Prelude.{get_or, IsTrue};
ghost use Rattle.nor_cells.specs.Beside.{IsHeld, IsGap, IsBesideCell};
ghost use Rattle.nor_cells.specs.Marks.{MarkedBy, IsMarkedCell};

use crate::edges::BLANK;
use crate::touched::{CELL, mark};

/// Marks the held cells that aren't touched and have nothing but blank ones between them and a
/// touched cell.
pub(crate) fn mark_beside(marks: &mut [bool], touched: &[bool], content: &[u8])
    requires cells { length content.now ≡ 256 * length touched.now }
    requires small { length content.now ≤ 2 ^ 32 }
    ensures { MarkedBy (λ a. IsBesideCell (IsMarkedCell touched.now) content.now (a / 256))
        marks.old marks.new }
{
    for c in 0..touched.len() {
        mark_if_beside(marks, touched, content, c);
    }
}

/// Marks a cell that is one of these.
fn mark_if_beside(marks: &mut [bool], touched: &[bool], content: &[u8], c: usize)
    requires cells { length content.now ≡ 256 * length touched.now }
    requires small { length content.now ≤ 2 ^ 32 }
    requires inside { c < length touched.now }
    ensures { MarkedBy (λ a. (a / 256 ≡ c) × IsBesideCell (IsMarkedCell touched.now) content.now
        (a / 256)) marks.old marks.new }
{
    if is_beside(touched, content, c) {
        mark(marks, c * CELL, c * CELL + 1);
    }
}

/// Whether a cell holds something, isn't touched, and has nothing but blank ones between it and a
/// touched one.
fn is_beside(touched: &[bool], content: &[u8], c: usize) -> bool
    requires cells { length content.now ≡ 256 * length touched.now }
    requires small { length content.now ≤ 2 ^ 32 }
    requires inside { c < length touched.now }
    ensures { IsTrue result ↔ IsBesideCell (IsMarkedCell touched.now) content.now c }
{
    if touched[c] || !holds(content, c) {
        return false;
    }
    touched_above(touched, content, c) || touched_below(touched, content, c)
}

/// Whether a byte of a cell isn't FFh.
fn holds(content: &[u8], c: usize) -> bool
    requires cells { 256 * c + 256 ≤ length content.now }
    requires small { length content.now ≤ 2 ^ 32 }
    ensures { IsTrue result ↔ IsHeld content.now c }
{
    for at in c * CELL..c * CELL + CELL {
        if content[at] != BLANK {
            return true;
        }
    }
    false
}

/// Whether nothing but blank cells lies between a cell and a touched one above it.
fn touched_above(touched: &[bool], content: &[u8], c: usize) -> bool
    requires cells { length content.now ≡ 256 * length touched.now }
    requires small { length content.now ≤ 2 ^ 32 }
    requires inside { c < length touched.now }
    ensures { IsTrue result ↔ ((to : ℕ) × (to < length touched.now) × IsMarkedCell touched.now to
        × IsGap (IsMarkedCell touched.now) content.now c to) }
{
    for d in c + 1..touched.len() {
        if touched[d] {
            return true;
        }
        if holds(content, d) {
            return false;
        }
    }
    false
}

/// Whether nothing but blank cells lies between a cell and a touched one below it.
fn touched_below(touched: &[bool], content: &[u8], c: usize) -> bool
    requires cells { length content.now ≡ 256 * length touched.now }
    requires small { length content.now ≤ 2 ^ 32 }
    requires inside { c < length touched.now }
    ensures { IsTrue result ↔ ((to : ℕ) × (to < length touched.now) × IsMarkedCell touched.now to
        × IsGap (IsMarkedCell touched.now) content.now to c) }
{
    let mut d = c;
    while d > 0 {
        d -= 1;
        if touched[d] {
            return true;
        }
        if holds(content, d) {
            return false;
        }
    }
    false
}
