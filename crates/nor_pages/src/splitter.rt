//! The runs of a unit.

ghost use Rattle.std.specs.Prelude.{◌≡◌, ◌≤◌, ◌<◌, ◌+◌, ◌/◌, ◌^◌, ◌++◌, ◌==◌, ◌&&◌, not, length};
ghost use Rattle.std.specs.Prelude.{false, IfOk, MatchOption};
ghost use Rattle.nor_pages.specs.Runs.{IsUnit, IsSplit, AreBetween, unit_start, page_runs};
ghost use Rattle.nor_pages.specs.Runs.{old_over, extended, reaches_back, some_run, ended, onward};
ghost use Rattle.nor_pages.specs.Runs.{change, pages_runs, LacksRun, BeginsRun, IsRun};

use crate::fault::PagesFault;
use crate::run::Run;
use nor_base::Meaning;
use nor_geometry::PlanUnit;
use std::alloc::{AllocError, Allocator, Global};

/// The runs of a unit, rising: `have` and `want` are its bytes, what the chip holds there and what
/// it must hold, whole pages of one length on the chip. Each lies within the unit, and there are no
/// more of them than bytes.
///
/// `Memory` where a growth is refused.
pub fn split(
    alloc: Global,
    meaning: &Meaning,
    unit: &PlanUnit,
    have: &[u8],
    want: &[u8],
) -> Result<Vec<Run>, PagesFault>
    requires lengths { length have.now ≡ length want.now }
    requires unit { IsUnit meaning.now unit.now (length want.now) }
    ensures split { IfOk result
        (λ runs. IsSplit meaning.now unit.now have.now want.now runs.items) }
    ensures within { IfOk result (λ runs.
        AreBetween (unit_start unit.now) (unit_start unit.now + length want.now) (length want.now)
        runs.items) }
{
    meaning.acceptance();
    match unit {
        PlanUnit::Block(block) => Ok(split_pages(alloc, meaning, block.start, true, have, want)?),
        PlanUnit::Page { start } => Ok(split_pages(alloc, meaning, *start, false, have, want)?),
    }
}

/// The runs of the pages that begin at an address. `blank` says that they are erased first.
fn split_pages<A: Allocator>(
    alloc: A,
    meaning: &Meaning,
    start: u32,
    blank: bool,
    have: &[u8],
    want: &[u8],
) -> Result<Vec<Run, A>, AllocError>
    requires lengths { length have.now ≡ length want.now }
    requires inside { start + length want.now ≤ 2 ^ 28 }
    ensures { IfOk result (λ runs. runs.items
        ≡ pages_runs meaning.now.erased_only meaning.now.page (change blank have.now want.now) start
        (length want.now / meaning.now.page)) }
{
    meaning.acceptance();
    let mut runs = Vec::new(alloc);
    let page = meaning.page as usize;
    for number in 0..want.len() / page {
        let low = number * page;
        push_page(
            &mut runs,
            start + low as u32,
            blank,
            meaning.erased_only,
            &have[low..low + page],
            &want[low..low + page],
        )?;
    }
    Ok(runs)
}

/// Appends the runs of a page. `blank` says that it is erased first.
fn push_page<A: Allocator>(
    runs: &mut Vec<Run, A>,
    at: u32,
    blank: bool,
    erased_only: bool,
    have: &[u8],
    want: &[u8],
) -> Result<(), AllocError>
    requires lengths { length have.now ≡ length want.now }
    requires inside { at + length want.now ≤ 2 ^ 28 }
    ensures { IfOk result (λ _. runs.new.items
        ≡ runs.old.items ++ page_runs blank erased_only have.now want.now at) }
{
    if !erased_only {
        return push_run(runs, span(at, blank, have, want));
    }
    let mut run = None;
    for i in 0..want.len() {
        let old = old_over(blank, have[i]);
        let closed = is_closed(erased_only, old);
        run = push_ended(runs, run, closed, differs(old, want[i]), at + i as u32)?;
    }
    push_run(runs, run)
}

/// The run of a page of which each byte may be programmed: from the first that has to change to the
/// last.
// most pages change at both ends, so few bytes are looked at
fn span(at: u32, blank: bool, have: &[u8], want: &[u8]) -> Option<Run>
    requires lengths { length have.now ≡ length want.now }
    requires inside { at + length want.now ≤ 2 ^ 28 }
    ensures { some_run result ≡ page_runs blank false have.now want.now at }
{
    let first = first_differing(blank, have, want)?;
    let last = last_differing(blank, have, want, first);
    Some(Run {
        at: at + first as u32,
        len: (last - first) as u32 + 1,
    })
}

/// The place of the first byte that has to change.
fn first_differing(blank: bool, have: &[u8], want: &[u8]) -> Option<usize>
    requires { length have.now ≡ length want.now }
    ensures { MatchOption result (LacksRun blank have.now want.now)
        (BeginsRun blank have.now want.now) }
{
    for i in 0..want.len() {
        if differs(old_over(blank, have[i]), want[i]) {
            return Some(i);
        }
    }
    None
}

/// The place of the last byte that has to change, of which `first` is the first.
fn last_differing(blank: bool, have: &[u8], want: &[u8], first: usize) -> usize
    requires lengths { length have.now ≡ length want.now }
    requires first { BeginsRun blank have.now want.now first }
    ensures from { first ≤ result }
    ensures upto { result < length want.now }
    ensures run { IsRun blank have.now want.now first result }
{
    let mut last = want.len() - 1;
    while last > first {
        if differs(old_over(blank, have[last]), want[last]) {
            return last;
        }
        last -= 1;
    }
    last
}

/// Appends the run that ends at an address, if one does; returns the one that goes on.
fn push_ended<A: Allocator>(
    runs: &mut Vec<Run, A>,
    run: Option<Run>,
    closed: bool,
    differs: bool,
    address: u32,
) -> Result<Option<Run>, AllocError>
    requires back { reaches_back run address }
    requires small { address < 2 ^ 28 }
    ensures runs { IfOk result (λ _. runs.new.items ≡ runs.old.items ++ ended closed run) }
    ensures onward { IfOk result (λ next. next ≡ onward closed differs run address) }
    ensures back { IfOk result (λ next. reaches_back next (address + 1)) }
{
    if closed {
        push_run(runs, run)?;
        return Ok(None);
    }
    if differs {
        return Ok(Some(extended(run, address)));
    }
    Ok(run)
}

/// Whether no program may cover a byte.
fn is_closed(erased_only: bool, old: u8) -> bool
    ensures { result ≡ (erased_only && not (old == 255)) }
{
    erased_only && old != 0xFF
}

/// Whether a byte has to change.
fn differs(old: u8, new: u8) -> bool
    ensures { result ≡ not (old == new) }
{
    old != new
}

/// Appends a run, if there is one.
fn push_run<A: Allocator>(runs: &mut Vec<Run, A>, run: Option<Run>) -> Result<(), AllocError>
    ensures { IfOk result (λ _. runs.new.items ≡ runs.old.items ++ some_run run) }
{
    if let Some(run) = run {
        runs.push(run)?;
    }
    Ok(())
}

/// What is there when a byte is programmed.
fn old_over(blank: bool, old: u8) -> u8
    ensures { result ≡ old_over blank old }
{
    if blank { 0xFF } else { old }
}

/// A run up to an address, or one that begins there.
fn extended(run: Option<Run>, address: u32) -> Run
    requires back { reaches_back run address }
    requires small { address < 2 ^ 28 }
    ensures { result ≡ extended run address }
{
    match run {
        None => Run {
            at: address,
            len: 1,
        },
        Some(run) => Run {
            at: run.at,
            len: address - run.at + 1,
        },
    }
}
