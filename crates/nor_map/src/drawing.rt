//! The picture: its cells, blocks and regions.

ghost use Rattle.std.specs.Prelude.{◌<◌, IfOk};
ghost use Rattle.std.specs.Int.{div_ceil};
ghost use Rattle.nor_map.specs.Totals.{Prints, totals_text};

use crate::beside::{Title, put_beside, put_list, put_title};
use crate::labels::put_labels;
use crate::marks::PlanMarks;
use crate::part::Part::{Number, Own, Side};
use crate::part::put;
use crate::rows::Grid;
use crate::state::State;
use crate::totals::totals;
use nor_layout::Region;
use std::alloc::{AllocError, Global};

/// The image's size, and how all is drawn.
const STYLE: &[u8] = b"<svg xmlns=\"http://www.w3.org/2000/svg\" viewBox=\"0 0 1920 ~\">
<style>
svg{font:13px monospace;fill:#222}
path{fill:none}
.t{font-size:20px;font-weight:bold}
.s{font-size:16px}
.f{text-anchor:middle;fill:#555}
.h{font-size:11px;fill:#555}
.a{text-anchor:end;fill:#555}
.n{font-weight:bold}
.r{font-size:11px}
.k{stroke:url(#K)}
.e{stroke:url(#E)}
.w{stroke:url(#W)}
.c{stroke:url(#C)}
.o{fill:#e6e6e6}
.b{stroke-width:1.5}
.b path{fill:#fff;fill-opacity:0;stroke:#d00}
.b path:hover{fill-opacity:.5}
.g{stroke:#000;stroke-dasharray:6 4}
</style>
<defs>
<pattern id=\"K\" width=\"1\" height=\"1\" patternUnits=\"userSpaceOnUse\">\
    <rect width=\".95\" height=\".95\" fill=\"#e6e6e6\"/>\
    </pattern>
<pattern id=\"E\" width=\"1\" height=\"1\" patternUnits=\"userSpaceOnUse\">\
    <rect width=\".95\" height=\".95\" fill=\"#fbe3e3\"/>\
    <path d=\"M.25.7.7.25M.25.25.7.7\" stroke=\"#b33\" stroke-width=\".08\"/>\
    </pattern>
<pattern id=\"W\" width=\"1\" height=\"1\" patternUnits=\"userSpaceOnUse\">\
    <rect width=\".95\" height=\".95\" fill=\"#ffd97a\"/>\
    <path d=\"M.2.475h.55\" stroke=\"#850\" stroke-width=\".1\"/>\
    </pattern>
<pattern id=\"C\" width=\"1\" height=\"1\" patternUnits=\"userSpaceOnUse\">\
    <rect width=\".95\" height=\".95\" fill=\"#1560b0\"/>\
    </pattern>
</defs>
<rect width=\"100%\" height=\"100%\" fill=\"#fff\"/>
";

/// Of the bar of one to four quarters of a cell how thick it is, and where its middle is.
const BARS: [(u64, &[u8], &[u8]); 4] = [
    (1, b".2375", b".83125"),
    (2, b".475", b".7125"),
    (3, b".7125", b".59375"),
    (4, b".95", b".475"),
];

/// Draws a map as an SVG image (W3C) of a plan's marks. Titles, names and report may hold any
/// bytes: those that aren't printable ASCII become `?`.
///
/// The image has room for 255 regions and 255 lines of report. An error comes where memory was
/// refused.
pub fn draw_map(
    alloc: Global,
    marks: &PlanMarks<'_>,
    title: &Title<'_>,
    regions: &[Region<'_>],
    report: &[u8],
) -> Result<Vec<u8>, AllocError>
    ensures { IfOk result (λ picture. Prints picture.items (totals_text marks.now)) }
{
    let grid = Grid::of(alloc, marks, regions)?;
    let rest = after_totals(alloc, marks, &grid, regions, report)?;
    let mut picture = before_totals(alloc, &grid, title, regions, report)?;
    let totals = totals(alloc, marks)?;
    picture.extend_from_slice(&totals)?;
    picture.extend_from_slice(&rest)?;
    Ok(picture)
}

/// What comes before the totals.
fn before_totals(
    alloc: Global,
    grid: &Grid,
    title: &Title<'_>,
    regions: &[Region<'_>],
    report: &[u8],
) -> Result<Vec<u8>, AllocError> {
    let mut out = Vec::new(alloc);
    let lines = report.iter().filter(|byte| **byte == b'\n').count();
    let cells = u64::from(grid.high) * u64::from(grid.down());
    let beside = 320 + 20 * (lines.min(255) as u64 + regions.len().min(255) as u64);
    put(&mut out, STYLE, &[Number(144 + cells.max(beside))])?;
    put_title(&mut out, title)?;
    put(&mut out, b"<text class=\"s\" x=\"96\" y=\"56\">", &[])?;
    Ok(out)
}

/// What comes after the totals.
fn after_totals(
    alloc: Global,
    marks: &PlanMarks<'_>,
    grid: &Grid,
    regions: &[Region<'_>],
    report: &[u8],
) -> Result<Vec<u8>, AllocError> {
    let mut out = Vec::new(alloc);
    let across = Number(u64::from(grid.across()));
    let down = Number(u64::from(grid.down()));
    let begin = b"</text>\n<g transform=\"translate(96 112) scale(~ ~)\">\n";
    put(&mut out, begin, &[across, down])?;
    put_cells(&mut out, marks, grid)?;
    put(
        &mut out,
        b"</g>\n<g transform=\"translate(96 112)\">\n",
        &[],
    )?;
    put_folds(&mut out, grid)?;
    put_blocks(&mut out, marks, grid)?;
    put_regions(&mut out, marks, grid, regions)?;
    put_labels(&mut out, marks, grid, regions)?;
    put_beside(&mut out, marks, grid, report)?;
    put_list(&mut out, regions)?;
    Ok(out)
}

/// How a part of a cell is drawn.
#[derive(Clone, Copy)]
enum Look {
    /// What it is, apart from its new bytes.
    Ground(State),
    /// That so many quarters of it are new: one means up to a quarter.
    Bar(u64),
}

/// Puts the cells: what each is apart from its new bytes, and over that a bar of these.
fn put_cells(out: &mut Vec<u8>, marks: &PlanMarks<'_>, grid: &Grid) -> Result<(), AllocError> {
    let grounds: [(State, &[u8]); 3] = [
        (State::Kept, b"k"),
        (State::Erased, b"e"),
        (State::Restored, b"w"),
    ];
    for (state, class) in grounds {
        put(out, b"<path class=\"~\" d=\"", &[Own(class)])?;
        put_rows(out, marks, grid, Look::Ground(state), b".5")?;
        put(out, b"\"/>\n", &[])?;
    }
    put_bars(out, marks, grid)
}

/// Puts the bars of new bytes.
fn put_bars(out: &mut Vec<u8>, marks: &PlanMarks<'_>, grid: &Grid) -> Result<(), AllocError> {
    for (quarters, thick, middle) in BARS {
        put(
            out,
            b"<path class=\"c\" stroke-width=\"~\" d=\"",
            &[Own(thick)],
        )?;
        put_rows(out, marks, grid, Look::Bar(quarters), middle)?;
        put(out, b"\"/>\n", &[])?;
    }
    Ok(())
}

/// Puts the runs of cells of a look in all rows that aren't plain, so far below each row's top.
fn put_rows(
    out: &mut Vec<u8>,
    marks: &PlanMarks<'_>,
    grid: &Grid,
    look: Look,
    below: &[u8],
) -> Result<(), AllocError> {
    for row in 0..grid.rows() {
        if !grid.is_fold(row) {
            put_row(out, marks, grid, look, row, below)?;
        }
    }
    Ok(())
}

/// Puts the runs of cells of a look in a row.
fn put_row(
    out: &mut Vec<u8>,
    marks: &PlanMarks<'_>,
    grid: &Grid,
    look: Look,
    row: u32,
    below: &[u8],
) -> Result<(), AllocError> {
    let first = row.saturating_mul(grid.columns);
    let top = grid.top(row);
    let mut run = 0_u32;
    for column in 0..grid.columns {
        if has_look(marks, first.saturating_add(column), look) {
            run = run.saturating_add(1);
        } else {
            put_run(out, top, below, column, run)?;
            run = 0;
        }
    }
    put_run(out, top, below, grid.columns, run)
}

/// Puts a run of so many cells that ends before a column; of no cells there is nothing.
fn put_run(
    out: &mut Vec<u8>,
    top: u32,
    below: &[u8],
    end: u32,
    count: u32,
) -> Result<(), AllocError> {
    if count == 0 {
        return Ok(());
    }
    let column = Number(u64::from(end.saturating_sub(count)));
    let (top, count) = (Number(u64::from(top)), Number(u64::from(count)));
    put(out, b"M~ ~~h~", &[column, top, Own(below), count])
}

/// Whether a cell has a look; none past the last one has.
fn has_look(marks: &PlanMarks<'_>, c: u32, look: Look) -> bool {
    if c >= marks.count() {
        return false;
    }
    match look {
        Look::Ground(state) => ground(marks, c).is(state),
        Look::Bar(quarters) => {
            (4 * u64::from(marks.fresh_in(c))).div_ceil(u64::from(marks.cell)) == quarters
        }
    }
}

/// What a cell is apart from its new bytes.
fn ground(marks: &PlanMarks<'_>, c: u32) -> State
    requires { c < div_ceil marks.now.size marks.now.cell }
{
    match marks.state(c) {
        State::Changed if marks.is_erased(c) => State::Restored,
        State::Changed => State::Kept,
        state => state,
    }
}

/// Puts the lines of plain rows.
fn put_folds(out: &mut Vec<u8>, grid: &Grid) -> Result<(), AllocError> {
    put(out, b"<path class=\"o\" d=\"", &[])?;
    for row in 0..grid.rows() {
        if grid.is_fold(row) && grid.begins_line(row) {
            let ends = [Number(grid.above(row)), Number(grid.under(row))];
            put(out, b"M0 ~H1024V~H0z", &ends)?;
        }
    }
    put(out, b"\"/>\n", &[])
}

/// Puts the outline of each erased block, with its cause as its title.
fn put_blocks(out: &mut Vec<u8>, marks: &PlanMarks<'_>, grid: &Grid) -> Result<(), AllocError> {
    let thick = Own(thickness(grid));
    put(out, b"<g class=\"b\" style=\"stroke-width:~\">\n", &[thick])?;
    for block in &marks.outlined {
        let last = block.start.saturating_add(block.size.saturating_sub(1));
        put(out, b"<path d=\"", &[])?;
        put_outline(out, marks, grid, (block.start, last), 0)?;
        put(out, b"\"><title>~~~~~</title></path>\n", &block.told())?;
    }
    put(out, b"</g>\n", &[])
}

/// Puts the outlines of the regions.
fn put_regions(
    out: &mut Vec<u8>,
    marks: &PlanMarks<'_>,
    grid: &Grid,
    regions: &[Region<'_>],
) -> Result<(), AllocError> {
    put(out, b"<path class=\"g\" d=\"", &[])?;
    for region in regions {
        let beyond = beyond_sides(regions, region);
        put_outline(out, marks, grid, (region.start, region.end), beyond)?;
    }
    put(out, b"\"/>\n</g>\n", &[])
}

/// How thick the outlines of blocks are: of small cells so thin that these show.
fn thickness(grid: &Grid) -> &'static [u8] {
    match grid.down() {
        0..=4 => b".4",
        5..=8 => b".8",
        _ => b"1.5",
    }
}

/// How far beside the map the sides of a region are that has others in it, so that theirs show.
fn beyond_sides(regions: &[Region<'_>], region: &Region<'_>) -> u64 {
    if !regions.iter().any(|other| has_inside(region, other)) {
        return 0;
    }
    let around = regions
        .iter()
        .filter(|other| has_inside(other, region))
        .count();
    match around {
        0 => 6,
        1 => 4,
        _ => 2,
    }
}

/// Whether a region has all of another one, and more.
fn has_inside(region: &Region<'_>, other: &Region<'_>) -> bool {
    region.start <= other.start
        && other.end <= region.end
        && (region.start, region.end) != (other.start, other.end)
}

/// Puts the outline of the cells that hold the addresses from the first to the last of `ends`, as
/// far as they are the chip's: at the sides of the map so far beside it.
fn put_outline(
    out: &mut Vec<u8>,
    marks: &PlanMarks<'_>,
    grid: &Grid,
    ends: (u32, u32),
    beyond: u64,
) -> Result<(), AllocError> {
    let first = ends.0 / marks.cell;
    let last = (ends.1 / marks.cell).min(marks.count().saturating_sub(1));
    if last < first {
        return Ok(());
    }
    let (begin, end) = (first / grid.columns, last / grid.columns);
    let across = u64::from(grid.across());
    let left = Side(u64::from(first % grid.columns) * across, beyond);
    let right = Side(u64::from(last % grid.columns + 1) * across, beyond);
    let (high, under) = (Number(grid.above(begin)), Number(grid.under(begin)));
    let (bottom, low) = (Number(grid.above(end)), Number(grid.under(end)));
    if grid.top(begin) == grid.top(end) {
        return put(out, b"M~ ~H~V~H~z", &[left, high, right, under, left]);
    }
    let (west, east) = (Side(0, beyond), Side(1024, beyond));
    let parts = [left, high, east, bottom, right, low, west, under, left];
    put(out, b"M~ ~H~V~H~V~H~V~H~z", &parts)
}
