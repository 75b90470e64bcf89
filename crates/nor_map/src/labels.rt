//! What stands around the cells of a map, beside their rows.

use crate::blocks::Block;
use crate::marks::PlanMarks;
use crate::part::Part::{Address, Any, Number, Offset, Size};
use crate::part::put;
use crate::rows::{Grid, fold_height};
use nor_layout::Region;
use std::alloc::AllocError;

/// Puts the offsets of the columns, the addresses of the rows, what stands for plain rows, the
/// names of the regions, and the causes of the erased blocks.
pub(crate) fn put_labels(
    out: &mut Vec<u8>,
    marks: &PlanMarks<'_>,
    grid: &Grid,
    regions: &[Region<'_>],
) -> Result<(), AllocError> {
    let middle = (slot_top(grid, 1) / 2).saturating_add(5);
    let below = Number(middle.saturating_add(112));
    put(
        out,
        b"<g class=\"h\" transform=\"translate(96 106)\">\n",
        &[],
    )?;
    put_offsets(out, marks, grid)?;
    put(
        out,
        b"</g>\n<g class=\"a\" transform=\"translate(84 ~)\">\n",
        &[below],
    )?;
    put_addresses(out, marks, grid)?;
    put(
        out,
        b"</g>\n<g class=\"f\" transform=\"translate(608 ~)\">\n",
        &[below],
    )?;
    put_fold_sizes(out, marks, grid)?;
    put(out, b"</g>\n<svg x=\"1132\" y=\"112\" width=\"146\">", &[])?;
    put(
        out,
        b"<g class=\"n\" transform=\"translate(0 ~)\">\n",
        &[Number(middle)],
    )?;
    put_names(out, marks, grid, regions)?;
    put(
        out,
        b"</g></svg>\n<g class=\"r\" transform=\"translate(1286 ~)\">\n",
        &[below],
    )?;
    put_causes(out, marks, grid)?;
    put(out, b"</g>\n", &[])
}

/// Puts the offsets of sixteen columns.
fn put_offsets(out: &mut Vec<u8>, marks: &PlanMarks<'_>, grid: &Grid) -> Result<(), AllocError> {
    for column in 0..grid.columns.min(marks.count()) {
        if column % (grid.columns / 16).max(1) == 0 {
            let x = Number(u64::from(column) * u64::from(grid.across()));
            let offset = Offset(column.saturating_mul(marks.cell));
            put(out, b"<text x=\"~\">+~</text>\n", &[x, offset])?;
        }
    }
    Ok(())
}

/// Puts the addresses of the lines that are far enough below the last text.
fn put_addresses(out: &mut Vec<u8>, marks: &PlanMarks<'_>, grid: &Grid) -> Result<(), AllocError> {
    let mut free = 0;
    for row in 0..grid.rows() {
        if grid.begins_line(row) && grid.top(row) >= free {
            let parts = [Number(grid.above(row)), Address(begin_of(marks, grid, row))];
            put(out, b"<text y=\"~\">~</text>\n", &parts)?;
            free = grid.top(row).saturating_add(fold_height(grid.columns));
        }
    }
    Ok(())
}

/// The first address of a row.
fn begin_of(marks: &PlanMarks<'_>, grid: &Grid, row: u32) -> u32 {
    row.saturating_mul(grid.columns).saturating_mul(marks.cell)
}

/// Puts how many bytes each line of plain rows has.
fn put_fold_sizes(out: &mut Vec<u8>, marks: &PlanMarks<'_>, grid: &Grid) -> Result<(), AllocError> {
    let mut begin = 0;
    for row in 0..grid.rows() {
        if grid.begins_line(row) {
            begin = begin_of(marks, grid, row);
        }
        let next = row.saturating_add(1);
        if grid.is_fold(row) && (next == grid.rows() || grid.begins_line(next)) {
            let end = begin_of(marks, grid, next).min(marks.size);
            let size = Size(u64::from(end.saturating_sub(begin)));
            put(
                out,
                b"<text y=\"~\">~ as they were</text>\n",
                &[Number(grid.above(row)), size],
            )?;
        }
    }
    Ok(())
}

/// The place for a text that has the first cell of an address, counted from the top.
fn slot(marks: &PlanMarks<'_>, grid: &Grid, address: u32) -> u32 {
    grid.top(address / marks.cell / grid.columns) / fold_height(grid.columns)
}

/// Where a place for a text is.
fn slot_top(grid: &Grid, slot: u32) -> u64 {
    let rows = slot.saturating_mul(fold_height(grid.columns));
    u64::from(rows) * u64::from(grid.down())
}

/// Puts the names of the regions, each beside the row in which it begins.
fn put_names(
    out: &mut Vec<u8>,
    marks: &PlanMarks<'_>,
    grid: &Grid,
    regions: &[Region<'_>],
) -> Result<(), AllocError> {
    for place in 0..grid.high / fold_height(grid.columns) + 1 {
        if regions
            .iter()
            .any(|region| slot(marks, grid, region.start) == place)
        {
            put(out, b"<text y=\"~\">", &[Number(slot_top(grid, place))])?;
            put_names_at(out, marks, grid, regions, place)?;
            put(out, b"</text>\n", &[])?;
        }
    }
    Ok(())
}

/// Puts the names of the regions that begin at a place.
fn put_names_at(
    out: &mut Vec<u8>,
    marks: &PlanMarks<'_>,
    grid: &Grid,
    regions: &[Region<'_>],
    place: u32,
) -> Result<(), AllocError> {
    for region in regions {
        if slot(marks, grid, region.start) == place {
            put(out, b"~ ", &[Any(region.name)])?;
        }
    }
    Ok(())
}

/// Puts what the erased blocks are erased for, each beside the row in which it begins: of several
/// at a place the first, and how many more there are.
fn put_causes(out: &mut Vec<u8>, marks: &PlanMarks<'_>, grid: &Grid) -> Result<(), AllocError> {
    let mut first: Option<Block> = None;
    let mut more = 0_u64;
    for block in &marks.outlined {
        let place = slot(marks, grid, block.start);
        match first {
            Some(block) if slot(marks, grid, block.start) == place => more = more.saturating_add(1),
            _ => {
                put_cause(out, marks, grid, first, more)?;
                first = Some(*block);
                more = 0;
            }
        }
    }
    put_cause(out, marks, grid, first, more)
}

/// Puts what a block is erased for, if there is one, and how many more there are at its place.
fn put_cause(
    out: &mut Vec<u8>,
    marks: &PlanMarks<'_>,
    grid: &Grid,
    first: Option<Block>,
    more: u64,
) -> Result<(), AllocError> {
    let Some(block) = first else {
        return Ok(());
    };
    let y = slot_top(grid, slot(marks, grid, block.start));
    put(out, b"<text y=\"~\">", &[Number(y)])?;
    put(out, b"~~~~~", &block.told())?;
    if more > 0 {
        put(out, b" +~", &[Number(more)])?;
    }
    put(out, b"</text>\n", &[])
}
