//! Rows on layouts.

use crate::bench::Asked;
use crate::faults::put_fault;
use crate::words::{text, unescaped};
use nor_base::Bytes;
use nor_job::BuildFault;
use nor_layout::{Chosen, LayoutFault, read};
use std::alloc::{AllocError, Global};
use std::io;
use test_samples::words::ODD;

/// Tells the runs that a layout's regions of these names choose, or the fault.
pub(crate) fn choose(asked: &Asked<'_, '_>, out: &mut String) -> io::Result<()> {
    match chosen(asked, ">", asked.words.get(1..).unwrap_or(&[]))? {
        Ok(chosen) => Ok(put_chosen(&chosen, out)?),
        Err(fault) => put_fault(out, BuildFault::Layout(fault)),
    }
}

/// The next chosen run from an address on.
pub(crate) fn next_run(asked: &Asked<'_, '_>, out: &mut String) -> io::Result<()> {
    let chosen = chosen(asked, ">", asked.words.get(2..).unwrap_or(&[]))?
        .ok()
        .ok_or(ODD)?;
    match chosen.next_run(asked.hexadecimal(1)?) {
        Some((first, last)) => writeln!(out, "{first:08x} {last:08x}")?,
        None => out.push_str("none\n")?,
    }
    Ok(())
}

/// What the regions of these names choose in the layout that is handed over with a sign.
pub(crate) fn chosen(
    asked: &Asked<'_, '_>,
    sign: &str,
    names: &[&str],
) -> io::Result<Result<Chosen, LayoutFault>> {
    let text = text(asked, sign)?.unwrap_or(Vec::new(asked.alloc));
    let names = owned(asked.alloc, names)?;
    Ok(read(asked.alloc, &text).and_then(|layout| layout.choose(asked.alloc, &names)))
}

/// Names as the caller of `choose` has them; `\` is the empty one.
pub(crate) fn owned(alloc: Global, names: &[&str]) -> io::Result<Vec<Bytes>> {
    let mut owned = Vec::new(alloc);
    for word in names {
        owned.push(Bytes::new(unescaped(alloc, word)?))?;
    }
    Ok(owned)
}

/// The first and last address of each run of a choice, and how many addresses the runs have.
pub(crate) fn put_chosen(chosen: &Chosen, out: &mut String) -> Result<(), AllocError> {
    let mut count = 0u64;
    let mut from = Some(0);
    for _ in 0..300 {
        let Some((first, last)) = from.and_then(|from| whole_run(chosen, from)) else {
            break;
        };
        put_run(chosen, first, last, out)?;
        count = count.saturating_add(u64::from(last.saturating_sub(first)).saturating_add(1));
        from = last.checked_add(1);
    }
    writeln!(out, "count {count}")
}

/// The first and last address of a run, and whether a choice has other addresses at its ends.
fn put_run(chosen: &Chosen, first: u32, last: u32, out: &mut String) -> Result<(), AllocError> {
    writeln!(out, "{first:08x} {last:08x}")?;
    let beside = [first.checked_sub(1), last.checked_add(1)];
    let is_beside = beside.iter().flatten().any(|at| chosen.has(*at));
    if is_beside || !chosen.has(first) || !chosen.has(last) {
        out.push_str("not so by its addresses\n")?;
    }
    Ok(())
}

/// The next run of a choice, whose next address isn't chosen.
fn whole_run(chosen: &Chosen, from: u32) -> Option<(u32, u32)> {
    let (first, mut last) = chosen.next_run(from)?;
    for _ in 0..300 {
        let after = last.checked_add(1).and_then(|next| chosen.next_run(next));
        match after {
            Some((more, end)) if more.checked_sub(1) == Some(last) => last = end,
            _ => break,
        }
    }
    Some((first, last))
}
