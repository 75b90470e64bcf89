//! A choice of addresses.

ghost use Rattle.std.specs.Prelude.{◌≡◌, ℕ, Some, None, IfOk, IfErr, MatchOption};
ghost use Rattle.nor_layout.specs.Chosen.{has, is_named, lies_in, lies_in_named, is_before};
ghost use Rattle.nor_layout.specs.Chosen.{HasNoneChosen, IsChosenRun};
ghost use Rattle.nor_layout.specs.declared.fault.LayoutFault.TheVariants.{Memory};

use crate::fault::LayoutFault;
use crate::region::Region;
use nor_base::Bytes;
use std::alloc::Global;
use std::marker::Model;

/// The addresses from `start` to `end`, both included.
#[derive(Clone, Copy)]
pub(crate) struct Interval {
    start: u32,
    end: u32,
}

/// A set of addresses: every address, or those of some regions.
#[derive(Drop)]
pub struct Chosen {
    intervals: Option<Vec<Interval>>,
}

impl Model for Chosen {
    ghost use Rattle.std.specs.Prelude.{Option, List};
    ghost use Rattle.std.specs.Option.{option_map};
    ghost use Rattle.nor_layout.specs.declared.chosen.Interval.{Interval};

    ghost Value = { Option (List Interval) };

    ghost view = { λ chosen. option_map (λ intervals. intervals.items) chosen.intervals };
}

impl Chosen {
    /// Every address. It takes no memory.
    pub fn whole() -> Chosen
        ensures { result ≡ None }
    {
        Chosen { intervals: None }
    }

    /// Whether an address is chosen. It takes no memory.
    pub fn has(&self, address: u32) -> bool
        ensures { result ≡ has self.now address }
    {
        match &self.intervals {
            None => true,
            Some(intervals) => lies_in(intervals, address),
        }
    }

    /// The lowest chosen address at or past `from`, with the last of some addresses from there on
    /// that are all chosen; None where no address from `from` on is chosen. The one after the last
    /// may be chosen too. It takes no memory, and its time grows with the number of regions chosen.
    pub fn next_run(&self, from: u32) -> Option<(u32, u32)>
        ensures { MatchOption result (HasNoneChosen (has self.now) from)
            (λ run. IsChosenRun (has self.now) from run.0 run.1) }
    {
        match &self.intervals {
            None => Some((from, u32::MAX)),
            Some(intervals) => next_run_in(intervals, from),
        }
    }

    /// The addresses of the intervals.
    pub(crate) fn of(intervals: Vec<Interval>) -> Chosen
        ensures { result ≡ Some intervals.items }
    {
        Chosen {
            intervals: Some(intervals),
        }
    }
}

/// Whether an address lies in one of the intervals.
fn lies_in(intervals: &[Interval], address: u32) -> bool
    ensures { result ≡ lies_in intervals.now address }
{
    intervals.iter().any(|interval| interval.start <= address && address <= interval.end)
}

/// What the interval that comes first at or past `from` has from there on.
fn next_run_in(intervals: &[Interval], from: u32) -> Option<(u32, u32)>
    ensures { MatchOption result (HasNoneChosen (lies_in intervals.now) from)
        (λ run. IsChosenRun (lies_in intervals.now) from run.0 run.1) }
{
    let mut next = None;
    for interval in intervals {
        let first = interval.start.max(from);
        if first <= interval.end && is_before(first, next) {
            next = Some((first, interval.end));
        }
    }
    next
}

/// Whether an address lies before a run, as it does where there is none.
fn is_before(address: u32, run: Option<(u32, u32)>) -> bool
    ensures { result ≡ is_before address run }
{
    match run {
        Some((first, _)) => address < first,
        None => true,
    }
}

/// The intervals of the regions with these names.
pub(crate) fn intervals_of(
    alloc: Global,
    regions: &[Region<'_>],
    names: &[Bytes],
) -> Result<Vec<Interval>, LayoutFault>
    ensures chosen { IfOk result (λ intervals. (a : ℕ)
        → lies_in intervals.items a ≡ lies_in_named regions.now names.now a) }
    ensures refused { IfErr result (λ fault. fault ≡ Memory) }
{
    let mut intervals = Vec::new(alloc);
    for region in regions {
        if is_named(names, region.name) {
            intervals.push(Interval {
                start: region.start,
                end: region.end,
            })?;
        }
    }
    Ok(intervals)
}

/// Whether a name is one of these, byte for byte.
fn is_named(names: &[Bytes], name: &[u8]) -> bool
    ensures { result ≡ is_named names.now name.now }
{
    names.iter().any(|other| other.as_slice() == name)
}
