//! The rows of a map as they are drawn.

ghost use Rattle.std.specs.Prelude.{◌≡◌, ◌<◌, ◌≤◌, ◌+◌, ◌*◌, ◌^◌, ℕ, List, Bool, IfOk, length};
ghost use Rattle.std.specs.Prelude.{get_or, false};
ghost use Rattle.std.specs.Int.{div_ceil};
ghost use Rattle.std.specs.List.{list_any};
ghost use Rattle.nor_map.specs.Rows.{busy_of, columns_of, down_for, fold_height, goes_on, high_of};
ghost use Rattle.nor_map.specs.Rows.{in_rows, is_low, is_plain, row_height, rows, tops_of};
ghost use Rattle.nor_map.specs.Rows.{Cells as KnownCells};

use crate::cells::unmarked;
use crate::marks::PlanMarks;
use crate::state::State;
use nor_layout::Region;
use std::alloc::{AllocError, Global};
use std::marker::Model;

/// How high the rows of a map may be, where they can have more cells.
const MOST_HIGH: u64 = 1152;

/// Of each cell whether something is done to it, and whether a region begins there or ended before.
#[derive(Drop)]
pub(crate) struct Cells {
    busy: Vec<bool>,
    edges: Vec<bool>,
}

impl Model for Cells {
    ghost use Rattle.nor_map.specs.Rows.{AreCells, Cells};

    ghost Value = { Cells };

    ghost view = { λ k. record { busy = k.busy.items; edges = k.edges.items } };

    ghost invariant = { λ k. AreCells k.busy.items k.edges.items };
}

/// Cells in rows of 16 to 256.
#[derive(Drop)]
pub(crate) struct Grid {
    cells: Cells,
    pub(crate) columns: u32,
    tops: Vec<u32>,
    pub(crate) high: u32,
}

impl Model for Grid {
    ghost use Rattle.nor_map.specs.Rows.{Grid, IsGrid};

    ghost Value = { Grid };

    ghost view = { λ g. record {
      cells = g.cells;
      columns = g.columns;
      tops = g.tops.items;
      high = g.high;
    } };

    ghost invariant = { λ g. IsGrid g.columns g.high };
}

impl Grid {
    /// The cells of a chip under a plan, in rows. Rows in which nothing is done are one line,
    /// except where a region begins or ends. An error comes where memory was refused.
    pub fn of(
        alloc: Global,
        marks: &PlanMarks<'_>,
        regions: &[Region<'_>],
    ) -> Result<Grid, AllocError>
        ensures { IfOk result (λ grid. (edges : List Bool)
            × (grid ≡ in_rows (record { busy = busy_of marks.now; edges = edges }))) }
    {
        let cells = Cells {
            busy: busy_of(alloc, marks)?,
            edges: edges_of(alloc, marks, regions)?,
        };
        rows_of(alloc, cells)
    }

    /// How many units a cell is wide, where a full row is 1024 wide.
    pub fn across(&self) -> u32
        ensures few { result ≤ 1024 }
    {
        1024 / self.columns
    }

    /// How many units a cell is high.
    pub fn down(&self) -> u32
        ensures few { result ≤ 32 }
    {
        down_for(self.columns)
    }

    /// Where a row is drawn, in rows from the top; one past the chip, below all.
    pub fn top(&self, row: u32) -> u32 {
        match self.tops.get(row as usize) {
            Some(top) => *top,
            None => self.high,
        }
    }

    /// How many rows there are.
    pub fn rows(&self) -> u32 {
        rows(&self.cells, self.columns)
    }

    /// Whether a row is drawn below the one before it.
    pub fn begins_line(&self, row: u32) -> bool {
        row == 0 || self.top(row - 1) != self.top(row)
    }

    /// Where the top of a row is, in units.
    pub fn above(&self, row: u32) -> u64 {
        u64::from(self.top(row)) * u64::from(self.down())
    }

    /// Where the bottom of the line of a row is, in units.
    pub fn under(&self, row: u32) -> u64 {
        let rows = if self.is_fold(row) {
            fold_height(self.columns)
        } else {
            1
        };
        (u64::from(self.top(row)) + u64::from(rows)) * u64::from(self.down())
    }

    /// Whether a row is one of a line of plain rows.
    pub fn is_fold(&self, row: u32) -> bool {
        let first = u64::from(row) * u64::from(self.columns);
        first < self.cells.busy.len() as u64 && is_plain(&self.cells, self.columns, row)
    }
}

/// Puts cells in rows. An error comes where memory was refused.
fn rows_of(alloc: Global, cells: Cells) -> Result<Grid, AllocError>
    ensures { IfOk result (λ grid. grid ≡ in_rows cells) }
{
    let columns = columns_of(&cells);
    let high = high_of(&cells, columns);
    let tops = tops_of(alloc, &cells, columns)?;
    Ok(Grid {
        cells,
        columns,
        tops,
        high,
    })
}

/// Of each cell whether something is done to it.
fn busy_of(alloc: Global, marks: &PlanMarks<'_>) -> Result<Vec<bool>, AllocError>
    ensures { IfOk result (λ busy. busy.items ≡ busy_of marks.now) }
{
    let mut busy = Vec::new(alloc);
    for c in 0..marks.count() {
        busy.push(!marks.state(c).is(State::Kept))?;
    }
    Ok(busy)
}

/// Of each cell whether a region begins there or ended before.
fn edges_of(
    alloc: Global,
    marks: &PlanMarks<'_>,
    regions: &[Region<'_>],
) -> Result<Vec<bool>, AllocError>
    ensures each { IfOk result
        (λ edges. length edges.items ≡ div_ceil marks.now.size marks.now.cell) }
    ensures few { IfOk result (λ edges. length edges.items < 2 ^ 32) }
{
    let mut edges = unmarked(alloc, marks.count())?;
    for region in regions {
        set(edges.as_mut_slice(), (region.start / marks.cell) as usize);
        set(edges.as_mut_slice(), (region.end / marks.cell) as usize + 1);
    }
    Ok(edges)
}

/// Sets the mark of a cell, if there is one.
fn set(marks: &mut [bool], c: usize)
    ensures { length marks.new ≡ length marks.old }
{
    if c < marks.len() {
        marks[c] = true;
    }
}

/// How many rows of so many cells hold them all.
pub(crate) fn rows(cells: &Cells, columns: u32) -> u32
    requires { 16 ≤ columns }
    ensures value { result ≡ rows cells.now columns }
    ensures few { result < 2 ^ 29 }
{
    (cells.busy.len() as u32).div_ceil(columns)
}

/// Whether nothing is done to any cell of a row, and no region begins or ends inside of it.
fn is_plain(cells: &Cells, columns: u32, row: u32) -> bool
    requires some { 16 ≤ columns }
    requires few { columns ≤ 256 }
    requires inside { row * columns < length cells.now.busy }
    ensures { result ≡ is_plain cells.now columns row }
{
    let first = row as usize * columns as usize;
    let end = (first + columns as usize).min(cells.busy.len());
    !is_some_set(&cells.busy[first..end]) && !is_some_set(&cells.edges[first + 1..end])
}

/// Whether some mark of these is set.
fn is_some_set(marks: &[bool]) -> bool
    ensures { result ≡ list_any (λ b. b) marks.now }
{
    marks.iter().any(|mark| *mark)
}

/// Whether a row and the one after it are plain, and no region begins or ends between them.
fn goes_on(cells: &Cells, columns: u32, row: u32) -> bool
    requires some { 16 ≤ columns }
    requires few { columns ≤ 256 }
    requires early { row < 2 ^ 29 }
    requires inside { row * columns < length cells.now.busy }
    ensures { result ≡ goes_on cells.now columns row }
{
    let next = (row as usize + 1) * columns as usize;
    next < cells.busy.len()
        && is_plain(cells, columns, row)
        && is_plain(cells, columns, row + 1)
        && !cells.edges[next]
}

/// How many rows high the line of plain rows is: as high as a text.
pub(crate) fn fold_height(columns: u32) -> u32
    ensures value { result ≡ fold_height columns }
    ensures some { 0 < result }
    ensures few { result < 2 ^ 27 }
{
    (columns / 64).max(1)
}

/// How high a row is: of plain rows that are one line the last has its height.
fn row_height(cells: &Cells, columns: u32, row: u32) -> u32
    requires some { 16 ≤ columns }
    requires few { columns ≤ 256 }
    requires early { row < 2 ^ 29 }
    requires inside { row * columns < length cells.now.busy }
    ensures value { result ≡ row_height cells.now columns row }
    ensures few { result ≤ 4 }
{
    if goes_on(cells, columns, row) {
        0
    } else if is_plain(cells, columns, row) {
        fold_height(columns)
    } else {
        1
    }
}

/// How high the rows are, of so many cells each.
fn high_of(cells: &Cells, columns: u32) -> u32
    requires some { 16 ≤ columns }
    requires few { columns ≤ 256 }
    ensures value { result ≡ high_of cells.now columns }
    ensures low { result < 2 ^ 31 }
{
    let mut top = 0;
    for row in 0..rows(cells, columns) {
        top += row_height(cells, columns, row);
    }
    top
}

/// Where each row of so many cells is drawn. An error comes where memory was refused.
fn tops_of(alloc: Global, cells: &Cells, columns: u32) -> Result<Vec<u32>, AllocError>
    requires some { 16 ≤ columns }
    requires few { columns ≤ 256 }
    ensures { IfOk result (λ tops. tops.items ≡ tops_of cells.now columns) }
{
    let mut tops = Vec::new(alloc);
    let mut top = 0;
    for row in 0..rows(cells, columns) {
        tops.push(top)?;
        top += row_height(cells, columns, row);
    }
    Ok(tops)
}

/// How many units a cell is high, in rows of so many.
fn down_for(columns: u32) -> u32
    ensures value { result ≡ down_for columns }
    ensures few { result ≤ 32 }
{
    1024 / columns.max(32)
}

/// Whether rows of so many cells are at most 1152 units high.
fn is_low(cells: &Cells, columns: u32) -> bool
    requires some { 16 ≤ columns }
    requires few { columns ≤ 256 }
    ensures { result ≡ is_low cells.now columns }
{
    u64::from(high_of(cells, columns)) * u64::from(down_for(columns)) <= MOST_HIGH
}

/// The cells of a row: the least power of two from 16 on for which the rows are so low, 256 at
/// most.
fn columns_of(cells: &Cells) -> u32
    ensures value { result ≡ columns_of cells.now }
    ensures some { 16 ≤ result }
    ensures few { result ≤ 256 }
{
    if is_low(cells, 16) {
        16
    } else if is_low(cells, 32) {
        32
    } else if is_low(cells, 64) {
        64
    } else if is_low(cells, 128) {
        128
    } else {
        256
    }
}
