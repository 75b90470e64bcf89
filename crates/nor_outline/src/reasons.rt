//! Why a block is erased.

ghost use Rattle.std.specs.Prelude.{◌≡◌, ◌≤◌, ◌+◌, ◌++◌, length, IfOk};
ghost use Rattle.nor_outline.specs.Outline.{reason, reasons};
ghost use Rattle.nor_outline.specs.Parts.{MayErase, due_in};

use crate::line::PlanLine;
use nor_base::{Meaning, Strategy};
use nor_erase::first_due;
use nor_geometry::{Block, smallest};
use nor_plan_laws::blocks;
use std::alloc::AllocError;

/// Appends a line for each smallest block of a block, rising, in which a byte is due: `have` and
/// `want` are the block's bytes.
pub(crate) fn push_reasons(
    meaning: &Meaning,
    strategy: Strategy,
    block: Block,
    have: &[u8],
    want: &[u8],
    lines: &mut Vec<PlanLine>,
) -> Result<(), AllocError>
    requires lengths { length have.now ≡ length want.now }
    requires count { length want.now ≡ block.size }
    requires block { MayErase meaning.now strategy block }
    ensures { IfOk result (λ _. lines.new.items ≡ lines.old.items
        ++ reasons meaning.now (due_in meaning.now have.now want.now block.start) block.start
        block.size) }
{
    meaning.acceptance();
    blocks();
    let mut done = 0;
    while done < have.len() {
        let start = block.start + done as u32;
        let Some(least) = smallest(meaning, strategy, start) else {
            // a block holds a smallest one at each of its addresses
            return Ok(());
        };
        let end = done + least.size as usize;
        push_reason(meaning, start, &have[done..end], &want[done..end], lines)?;
        done = end;
    }
    Ok(())
}

/// Appends the line of bytes that begin at an address, where one of them is due.
fn push_reason(
    meaning: &Meaning,
    start: u32,
    have: &[u8],
    want: &[u8],
    lines: &mut Vec<PlanLine>,
) -> Result<(), AllocError>
    requires lengths { length have.now ≡ length want.now }
    requires inside { start + length have.now ≤ meaning.now.size }
    ensures { IfOk result (λ _. lines.new.items ≡ lines.old.items
        ++ reason (due_in meaning.now have.now want.now start) start (length have.now)) }
{
    let Some(cause) = first_due(meaning, start, have, want) else {
        return Ok(());
    };
    lines.push(PlanLine::Because { start, cause })?;
    Ok(())
}
