//! Refused growths of what plans and lowers the work.
//!
//! `tools/refused-growths` refuses each growth in turn: the first test also passes where the fault
//! is Memory, the second only where each job is done.

use crate::same::{holds, same};
use nor_base::{Start, Strategy};
use nor_erase::plan;
use nor_frames::{FramesFault, clocks_into};
use nor_geometry::{Block, PlanFault, PlanUnit, strategy, window_size};
use nor_pages::{PagesFault, split};
use nor_select::{Instr, Op, SelectFault, lower};
use std::alloc::{AllocError, Global};
use std::process::Abort;
use test_samples::{large_chip, legacy_latched_chip, small_chip};

/// In three-byte mode, without the quad setting.
const PLAIN: Start = Start {
    mode4: false,
    quad: false,
};

/// Plans a window, splits a unit and lowers operations to their clocks. `AllocError` where memory
/// is refused; any other fault ends the test.
fn plan_each(rt: &impl Abort, alloc: Global) -> Result<(), AllocError> {
    plans_many_pages(rt, alloc)?;
    splits_three_pages(rt, alloc)?;
    lowers_two_programs(rt, alloc)
}

/// Each second page of 8 KiB has a byte that falls: more units than a list has room for at first.
fn plans_many_pages(rt: &impl Abort, alloc: Global) -> Result<(), AllocError> {
    let chip = large_chip();
    let window = window_size(&chip);
    holds(rt, "a window of the chip", window <= chip.size);
    let have = vec![in alloc; 0xFFu8; window as usize]?;
    let mut want = vec![in alloc; 0xFFu8; window as usize]?;
    for byte in want.iter_mut().step_by(512).take(16) {
        *byte = 0;
    }
    let count = window as usize;
    holds(rt, "its bytes", have.len() == count && want.len() == count);
    match plan(alloc, &chip, strategy(&chip, &PLAIN), 0, &have, &want) {
        Ok(units) => same(rt, "units", units.len(), 16),
        Err(fault) => {
            same(rt, "of a plan", fault, PlanFault::Memory);
            return Err(AllocError);
        }
    }
    Ok(())
}

/// The second sector of the small chip.
const SECTOR: PlanUnit = PlanUnit::Block(Block {
    start: 4096,
    size: 4096,
    kind: 1,
});

/// Three pages of the sector have a byte each.
fn splits_three_pages(rt: &impl Abort, alloc: Global) -> Result<(), AllocError> {
    let have = vec![in alloc; 0xFFu8; 4096]?;
    let mut want = vec![in alloc; 0xFFu8; 4096]?;
    want[0] = 0;
    want[256] = 0;
    want[512] = 0;
    match split(alloc, &small_chip(), &SECTOR, &have, &want) {
        Ok(runs) => same(rt, "runs", runs.len(), 3),
        Err(PagesFault::Memory) => return Err(AllocError),
    }
    Ok(())
}

/// Of the twelve instructions of two programs eight are an opcode alone, two a poll and two a
/// program of five bytes and one.
fn lowers_two_programs(rt: &impl Abort, alloc: Global) -> Result<(), AllocError> {
    let ops = [
        Op::Program { at: 0, bytes: &[0] },
        Op::Program {
            at: 256,
            bytes: &[1],
        },
    ];
    match lower(alloc, &ops, &legacy_latched_chip(), &PLAIN, Strategy::S4) {
        Ok(instrs) => appends_clocks(rt, alloc, &instrs),
        Err(SelectFault::Memory) => Err(AllocError),
    }
}

/// After a refusal the vector is as it was.
fn appends_clocks(rt: &impl Abort, alloc: Global, instrs: &[Instr<'_>]) -> Result<(), AllocError> {
    let mut clocks = Vec::new(alloc);
    for instr in instrs {
        holds(rt, "address bytes", instr.width <= 4);
        let before = clocks.len();
        if let Err(FramesFault::Memory) = clocks_into(instr, &mut clocks) {
            same(rt, "clocks before a refusal", clocks.len(), before);
            return Err(AllocError);
        }
    }
    same(rt, "clocks", clocks.len(), 8 * 8 + 2 * 16 + 2 * 48);
    Ok(())
}

#[test]
fn a_refused_growth_is_memory(rt: HostRuntime) {
    let _ = plan_each(&rt, rt.alloc());
}

#[test]
fn plans_all(rt: HostRuntime) {
    holds(&rt, "memory", plan_each(&rt, rt.alloc()).is_ok());
}
