//! Which cells of a chip hold a byte that steps touch.

ghost use Rattle.std.specs.Prelude.{◌≡◌, ◌<◌, ◌≤◌, ◌⊎◌, ◌+◌, ◌*◌, ◌/◌, ◌^◌, ◌++◌, [], List, IfOk};
ghost use Rattle.std.specs.Prelude.{false, true, length};
ghost use Rattle.nor_base.specs.declared.meaning.Start.{Start};
ghost use Rattle.nor_base.specs.declared.step.Step.{Step};
ghost use Rattle.nor_base.specs.Chip.{begins4};
ghost use Rattle.nor_base.specs.Effect.{is_program};
ghost use Rattle.nor_base.specs.Parameters.{Parameters};
ghost use Rattle.nor_base.specs.Spelling.{mode_after};
ghost use Rattle.nor_chip.specs.Sent.{instruction_of, sent};
ghost use Rattle.nor_cells.specs.Beside.{IsBesideCell};
ghost use Rattle.nor_cells.specs.Compared.{IsAsked};
ghost use Rattle.nor_cells.specs.Edges.{IsEdge};
ghost use Rattle.nor_cells.specs.Marks.{IsMarkedCell, MarkedBy, AreMarks};
ghost use Rattle.nor_cells.specs.Touched.{LiesBetween, Changes, Programs, Touches, IsTouched};
ghost use Rattle.nor_cells.specs.Touched.{mode_past, mode_past_all, HasTouched};
ghost use Rattle.nor_cells.specs.Wrap.{ShowsWrap};

use crate::beside::mark_beside;
use crate::edges::mark_edges;
use crate::wrap::mark_wraps;
use nor_base::{Meaning, Start, Step, What};
use nor_chip::program::place;
use nor_decode::{Seen, decode};
use std::alloc::{AllocError, Global};
use std::marker::Model;

/// Bytes of a cell: no erase block is smaller.
pub const CELL: usize = 256;

/// The cells that steps touch, as the steps come.
///
/// Its memory is one mark of each cell.
#[derive(Drop)]
pub struct TouchedCells<'a> {
    meaning: &'a Meaning,
    /// The address mode after the steps so far.
    mode4: bool,
    marks: Vec<bool>,
}

impl<'a> Model for TouchedCells<'a> {
    ghost use Rattle.nor_cells.specs.Touched.{SoFar};

    ghost Value = { SoFar };

    ghost use Rattle.std.specs.Prelude.{◌≡◌, ◌/◌, length};

    ghost view = { λ c. record {
      meaning = c.meaning.now;
      mode4 = c.mode4;
      marks = c.marks.items;
    } };

    ghost invariant = { λ c. length c.marks.items ≡ c.meaning.now.size / 256 };
}

impl<'a> TouchedCells<'a> {
    /// Those before the first step, on a chip of a meaning and a start: none.
    pub fn new(
        alloc: Global,
        meaning: &'a Meaning,
        start: &Start,
    ) -> Result<TouchedCells<'a>, AllocError>
        ensures { IfOk result (λ cells. HasTouched meaning.now start.now [] cells) }
    {
        let cells = meaning.size as usize / CELL;
        Ok(TouchedCells {
            meaning,
            mode4: meaning.begins4(start),
            marks: vec![in alloc; false; cells]?,
        })
    }

    /// Takes the steps that come next.
    pub fn touch(&mut self, steps: &[Step])
        ensures { (m : Parameters) (start : Start) (done : List Step)
            → HasTouched m start done self.old
            → HasTouched m start (done ++ steps.now) self.new }
    {
        self.mode4 = mark_steps(self.marks.as_mut_slice(), self.meaning, self.mode4, steps);
    }

    /// Which cells of the chip are to be compared with a content before the steps: those that they
    /// touch; those of the first and last byte that isn't FFh; those that hold something, with only
    /// blank cells up to a touched one; those by which a smaller chip shows ([`mark_wraps`]).
    ///
    /// Memory is taken for one mark more of each.
    pub fn compared(self, alloc: Global, content: &[u8]) -> Result<Vec<bool>, AllocError>
        requires { length content.now ≡ self.meaning.size }
        ensures { (m : Parameters) (start : Start) (steps : List Step)
            → HasTouched m start steps self.entry → IfOk result
            (λ marks. AreMarks (IsAsked (IsTouched m (begins4 m start) steps) content.now)
            (m.size / 256) marks.items) }
    {
        let meaning = self.meaning;
        meaning.acceptance();
        let touched = self.marks.as_slice();
        let mut marks = Vec::from_slice(alloc, touched)?;
        mark_others(marks.as_mut_slice(), touched, content);
        Ok(marks)
    }
}

/// Marks the cells beside those that are touched, those of the first and the last byte that aren't
/// FFh, and those by which a smaller chip shows.
fn mark_others(marks: &mut [bool], touched: &[bool], content: &[u8])
    requires cells { length content.now ≡ 256 * length touched.now }
    requires small { length content.now ≤ 2 ^ 32 }
    ensures { MarkedBy (λ a. IsEdge content.now a
        ⊎ (IsBesideCell (IsMarkedCell touched.now) content.now (a / 256) ⊎ ShowsWrap content.now a))
        marks.old marks.new }
{
    mark_edges(marks, content);
    mark_beside(marks, touched, content);
    mark_wraps(marks, content);
}

/// Marks the cells of the bytes that steps touch, from an address mode on, and returns the one
/// after them.
fn mark_steps(marks: &mut [bool], meaning: &Meaning, mode4: bool, steps: &[Step]) -> bool
    ensures marked { MarkedBy (IsTouched meaning.now mode4 steps.now) marks.old marks.new }
    ensures mode { result ≡ mode_past_all meaning.now mode4 steps.now }
{
    let mut mode4 = mode4;
    for step in steps {
        mode4 = mark_step(marks, meaning, mode4, step);
    }
    mode4
}

/// Marks the cells of the bytes that a step touches, and returns the address mode after it.
fn mark_step(marks: &mut [bool], meaning: &Meaning, mode4: bool, step: &Step) -> bool
    ensures marked { MarkedBy (Touches meaning.now mode4 step.now) marks.old marks.new }
    ensures mode { result ≡ mode_past meaning.now mode4 step.now }
{
    match decode(step.clocks(), meaning, mode4) {
        Some(seen) => {
            mark_seen(marks, meaning, &seen);
            mode_after(seen.what, mode4)
        }
        None => mode4,
    }
}

/// The address mode after an instruction.
fn mode_after(what: What, mode4: bool) -> bool
    ensures { result ≡ mode_after what mode4 }
{
    match what {
        What::Enter => true,
        What::Leave => false,
        _ => mode4,
    }
}

/// Marks the cells of the bytes that an instruction erases or programs.
fn mark_seen(marks: &mut [bool], meaning: &Meaning, seen: &Seen<'_>)
    ensures { MarkedBy (Changes meaning.now (instruction_of seen.now) seen.now.what) marks.old
        marks.new }
{
    match seen.what {
        What::Erase(kind) => {
            let first = seen.address as usize;
            mark(marks, first, first + meaning.block_size(kind) as usize);
        }
        What::Program | What::QuadProgram => mark_program(marks, meaning, seen),
        _ => {}
    }
}

/// Marks the cells of the bytes that a program writes.
fn mark_program(marks: &mut [bool], meaning: &Meaning, seen: &Seen<'_>)
    requires { is_program seen.now.what ≡ true }
    ensures { MarkedBy (Programs meaning.now (instruction_of seen.now)) marks.old marks.new }
{
    meaning.acceptance();
    let page = meaning.page;
    for index in 0..count_sent(seen) {
        let at = place(page, seen.address, index);
        mark(marks, at, at + 1);
    }
}

/// How many bytes a program sends.
fn count_sent(seen: &Seen<'_>) -> usize
    requires { is_program seen.now.what ≡ true }
    ensures { result ≡ length (sent seen.now) }
{
    seen.count()
}

/// Marks the cells of the addresses from one to before another.
pub(crate) fn mark(marks: &mut [bool], start: usize, end: usize)
    requires { end < 2 ^ 40 }
    ensures { MarkedBy (LiesBetween start end) marks.old marks.new }
{
    if end <= start {
        return;
    }
    let begin = start / CELL;
    let last = ((end - 1) / CELL + 1).min(marks.len());
    for c in begin..last {
        marks[c] = true;
    }
}
