//! Which cells a plan erases, and which it programs, and how many bytes of each are new.

ghost use Rattle.std.specs.Prelude.{◌≡◌, ◌<◌, ◌≤◌, ◌^◌, ◌&&◌, IfOk, IfSome, false, replicate};
ghost use Rattle.std.specs.Prelude.{◌==◌};
ghost use Rattle.nor_map.specs.Cells.{bytes_from, bytes_so, is_new, is_worked, lies_in};
ghost use Rattle.nor_map.specs.Cells.{new_bytes, run_of, works};
ghost use Rattle.nor_map.specs.Marks.{CountedBy, MarkedBy};
ghost use Rattle.nor_map.specs.declared.cells.Work.TheVariants as work;

use crate::wanted::Wanted;
use nor_outline::PlanLine;
use std::alloc::{AllocError, Global};

/// What a line of a plan does to the bytes that it names.
#[derive(Clone, Copy)]
pub(crate) enum Work {
    /// They are erased.
    Erased,
    /// They are programmed.
    Programmed,
}

/// The first and the last address of the bytes that a line works on so; None where it does not.
fn run_of(work: Work, line: PlanLine) -> Option<(u64, u64)>
    ensures value { result ≡ run_of work line }
    ensures order { IfSome result (λ run. run.0 ≤ run.1) }
    ensures small { IfSome result (λ run. run.1 < 2 ^ 40) }
{
    match (work, line) {
        (Work::Erased, PlanLine::Erase { start, size, .. }) => bytes_from(start, size),
        (Work::Programmed, PlanLine::Program { start, count }) => bytes_from(start, count),
        _ => None,
    }
}

/// So many bytes from an address on, by their first and last address.
fn bytes_from(start: u32, count: u32) -> Option<(u64, u64)>
    ensures value { result ≡ bytes_from start count }
    ensures order { IfSome result (λ run. run.0 ≤ run.1) }
    ensures small { IfSome result (λ run. run.1 < 2 ^ 40) }
{
    if count == 0 {
        return None;
    }
    Some((u64::from(start), u64::from(start) + u64::from(count - 1)))
}

/// So many cells of which nothing is so.
pub(crate) fn unmarked(alloc: Global, count: u32) -> Result<Vec<bool>, AllocError>
    ensures { IfOk result (λ marks. marks.items ≡ replicate count false) }
{
    let mut marks = Vec::new(alloc);
    for _ in 0..count {
        marks.push(false)?;
    }
    Ok(marks)
}

/// So many cells of which no byte is new.
pub(crate) fn uncounted(alloc: Global, count: u32) -> Result<Vec<u32>, AllocError>
    ensures { IfOk result (λ counts. counts.items ≡ replicate count 0) }
{
    let mut counts = Vec::new(alloc);
    for _ in 0..count {
        counts.push(0)?;
    }
    Ok(counts)
}

/// Marks the cells of `cell` bytes that hold some of the bytes that the plan works on so.
pub(crate) fn mark_lines(marks: &mut [bool], cell: u64, work: Work, lines: &[PlanLine])
    requires { 0 < cell }
    ensures { MarkedBy cell (is_worked work lines.now) marks.old marks.new }
{
    for line in lines {
        mark_line(marks, cell, work, *line);
    }
}

/// Marks the cells of `cell` bytes that hold some of the bytes that a line works on so.
fn mark_line(marks: &mut [bool], cell: u64, work: Work, line: PlanLine)
    requires { 0 < cell }
    ensures { MarkedBy cell (works work line) marks.old marks.new }
{
    if let Some((first, last)) = run_of(work, line) {
        mark(marks, cell, first, last);
    }
}

/// Marks the cells of `cell` bytes that hold some of the addresses from `first` to `last`.
fn mark(marks: &mut [bool], cell: u64, first: u64, last: u64)
    requires cell { 0 < cell }
    requires order { first ≤ last }
    requires last { last < 2 ^ 40 }
    ensures { MarkedBy cell (lies_in (first, last)) marks.old marks.new }
{
    let begin = first / cell;
    let end = (last / cell + 1).min(marks.len() as u64);
    for c in begin..end {
        marks[c as usize] = true;
    }
}

/// Counts the new bytes that the plan programs, each in its cell of `cell` bytes.
pub(crate) fn count_lines(counts: &mut [u32], cell: u32, wanted: &Wanted<'_>, lines: &[PlanLine])
    requires { 0 < cell }
    ensures { CountedBy cell (new_bytes cell wanted.now lines.now) counts.old counts.new }
{
    for line in lines {
        count_line(counts, cell, wanted, *line);
    }
}

/// Counts the new bytes that a line programs, each in its cell of `cell` bytes.
fn count_line(counts: &mut [u32], cell: u32, wanted: &Wanted<'_>, line: PlanLine)
    requires { 0 < cell }
    ensures { CountedBy cell
        (bytes_so cell (λ a. works work.Programmed line a && is_new wanted.now a)) counts.old
        counts.new }
{
    if let Some((first, last)) = run_of(Work::Programmed, line) {
        count(counts, cell, wanted, first, last);
    }
}

/// Counts the new bytes from `first` to `last`, each in its cell of `cell` bytes.
fn count(counts: &mut [u32], cell: u32, wanted: &Wanted<'_>, first: u64, last: u64)
    requires cell { 0 < cell }
    requires order { first ≤ last }
    requires last { last < 2 ^ 40 }
    ensures { CountedBy cell (bytes_so cell (λ a. lies_in (first, last) a && is_new wanted.now a))
        counts.old counts.new }
{
    for a in first..last + 1 {
        if wanted.has(a) {
            count_byte(counts, cell, a);
        }
    }
}

/// Counts the byte at an address in its cell of `cell` bytes.
fn count_byte(counts: &mut [u32], cell: u32, address: u64)
    requires cell { 0 < cell }
    requires small { address < 2 ^ 40 }
    ensures { CountedBy cell (bytes_so cell (λ a. a == address)) counts.old counts.new }
{
    let c = (address / u64::from(cell)) as usize;
    if c < counts.len() {
        counts[c] = counts[c].saturating_add(1).min(cell);
    }
}
