//! What the lines of a plan do to the cells of a chip, piece after piece.

ghost use Rattle.std.specs.Prelude.{◌≡◌, ℕ, List, ◌<◌, ◌+◌, ◌++◌, ◌^◌, [], count_by};
ghost use Rattle.std.specs.Prelude.{IfErr, IfOk};
ghost use Rattle.std.specs.Int.{div_ceil};
ghost use Rattle.nor_outline.specs.declared.line.PlanLine.{PlanLine};
ghost use Rattle.nor_map.specs.Cells.{Wanted as Holds};
ghost use Rattle.nor_map.specs.Marks.{erases, marks_of, programs, state_at};

use crate::blocks::{Block, keep_blocks};
use crate::cells::{Work, count_lines, mark_lines, uncounted, unmarked};
use crate::sizes::cell_size;
use crate::state::State;
use crate::wanted::Wanted;
use nor_outline::PlanLine;
use std::alloc::{AllocError, Global};
use std::marker::Model;

/// What a plan does to the cells of a chip, whose lines come piece after piece.
///
/// It holds six bytes for each of at most 65,536 cells, and of each cell the first block that
/// begins in it, however many lines come.
#[derive(Drop)]
pub struct PlanMarks<'a> {
    pub(crate) size: u32,
    pub(crate) cell: u32,
    wanted: Wanted<'a>,
    erased: Vec<bool>,
    programmed: Vec<bool>,
    fresh: Vec<u32>,
    pub(crate) blocks: u64,
    pub(crate) programs: u64,
    /// What is drawn of the erased blocks; no clause speaks of it.
    pub(crate) outlined: Vec<Block>,
}

impl<'a> Model for PlanMarks<'a> {
    ghost use Rattle.nor_map.specs.Marks.{IsMarks, Marks};

    ghost Value = { Marks };

    ghost view = { λ m. record {
      size = m.size;
      cell = m.cell;
      wanted = m.wanted;
      erased = m.erased.items;
      programmed = m.programmed.items;
      fresh = m.fresh.items;
      blocks = m.blocks;
      programs = m.programs;
    } };

    ghost invariant = { λ m. IsMarks m.size m.cell m.erased.items m.programmed.items
        m.fresh.items };
}

impl<'a> PlanMarks<'a> {
    /// What a plan of no lines yet does to a chip of `size` bytes: nothing. A cell is a page,
    /// doubled until 65,536 cells hold the chip.
    ///
    /// An error comes where memory was refused.
    pub fn new(
        alloc: Global,
        size: u32,
        page: u32,
        wanted: Wanted<'a>,
    ) -> Result<PlanMarks<'a>, AllocError>
        ensures { IfOk result (λ marks. marks ≡ marks_of size page wanted.entry []) }
    {
        let cell = cell_size(size, page);
        let count = size.div_ceil(cell);
        Ok(PlanMarks {
            size,
            cell,
            wanted,
            erased: unmarked(alloc, count)?,
            programmed: unmarked(alloc, count)?,
            fresh: uncounted(alloc, count)?,
            blocks: 0,
            programs: 0,
            outlined: Vec::new(alloc),
        })
    }

    /// Adds the next lines, which may overlap, stand in any order and lie past the chip.
    ///
    /// An error comes where memory was refused; no cell and no total changes then.
    pub fn add(&mut self, lines: &[PlanLine]) -> Result<(), AllocError>
        requires blocks { self.old.blocks + count_by erases lines.now < 2 ^ 64 }
        requires programs { self.old.programs + count_by programs lines.now < 2 ^ 64 }
        ensures added { (size page : ℕ) (wanted : Holds) (told : List PlanLine)
            → self.old ≡ marks_of size page wanted told
            → IfOk result (λ _. self.new ≡ marks_of size page wanted (told ++ lines.now)) }
        ensures unchanged { IfErr result (λ _. self.new ≡ self.old) }
    {
        keep_blocks(&mut self.outlined, self.cell, lines)?;
        let cell = u64::from(self.cell);
        mark_lines(self.erased.as_mut_slice(), cell, Work::Erased, lines);
        mark_lines(
            self.programmed.as_mut_slice(),
            cell,
            Work::Programmed,
            lines,
        );
        count_lines(self.fresh.as_mut_slice(), self.cell, &self.wanted, lines);
        self.blocks += erase_count(lines);
        self.programs += program_count(lines);
        Ok(())
    }

    /// How many cells there are.
    pub fn count(&self) -> u32
        ensures { result ≡ div_ceil self.now.size self.now.cell }
    {
        self.size.div_ceil(self.cell)
    }

    /// The state of a cell, counted from 0.
    pub fn state(&self, c: u32) -> State
        requires { c < div_ceil self.now.size self.now.cell }
        ensures { result ≡ state_at self.now c }
    {
        let c = c as usize;
        State::of(self.erased[c], self.programmed[c], self.fresh[c] > 0)
    }

    /// How many bytes of a cell are new, all at most.
    pub(crate) fn fresh_in(&self, c: u32) -> u32
        requires { c < div_ceil self.now.size self.now.cell }
    {
        self.fresh[c as usize]
    }

    /// Whether some byte of a cell is erased.
    pub(crate) fn is_erased(&self, c: u32) -> bool
        requires { c < div_ceil self.now.size self.now.cell }
    {
        self.erased[c as usize]
    }
}

/// How many lines erase.
fn erase_count(lines: &[PlanLine]) -> u64
    ensures { result ≡ count_by erases lines.now }
{
    lines.iter().filter(|line| erases(**line)).count() as u64
}

/// How many lines program.
fn program_count(lines: &[PlanLine]) -> u64
    ensures { result ≡ count_by programs lines.now }
{
    lines.iter().filter(|line| programs(**line)).count() as u64
}

/// Whether a line erases.
fn erases(line: PlanLine) -> bool
    ensures { result ≡ erases line }
{
    matches!(line, PlanLine::Erase { .. })
}

/// Whether a line programs.
fn programs(line: PlanLine) -> bool
    ensures { result ≡ programs line }
{
    matches!(line, PlanLine::Program { .. })
}
