//! The lines of a unit.

ghost use Rattle.std.specs.Prelude.{◌≡◌, ◌++◌, length, map, IfOk};
ghost use Rattle.nor_outline.specs.Parts.{IsPlanned, MayErase, due_in, run_line, block_lines};
ghost use Rattle.nor_outline.specs.Parts.{part_lines};
ghost use Rattle.nor_pages.specs.Runs.{unit_start};

use crate::line::PlanLine;
use crate::opcode::erase_opcode;
use crate::reasons::push_reasons;
use nor_base::{Meaning, Strategy};
use nor_geometry::{Block, PlanUnit};
use nor_pages::Run;
use std::alloc::AllocError;

/// Appends the lines of a unit (docs/FORMATS.md, section 9): its erase with the reasons, then its
/// programs. `have` and `want` are the unit's bytes; `runs` are its runs, as
/// [`split`](nor_pages::split) gives them.
pub(crate) fn push_unit(
    meaning: &Meaning,
    strategy: Strategy,
    unit: &PlanUnit,
    runs: &[Run],
    have: &[u8],
    want: &[u8],
    lines: &mut Vec<PlanLine>,
) -> Result<(), AllocError>
    requires lengths { length have.now ≡ length want.now }
    requires planned { IsPlanned meaning.now strategy unit.now (length want.now) }
    ensures { IfOk result (λ _. lines.new.items ≡ lines.old.items
        ++ part_lines meaning.now strategy
        (due_in meaning.now have.now want.now (unit_start unit.now)) unit.now runs.now) }
{
    match unit {
        PlanUnit::Block(block) => push_block(meaning, strategy, *block, runs, have, want, lines),
        PlanUnit::Page { .. } => push_runs(runs, lines),
    }
}

/// Appends the lines of a block that is erased, and of its runs.
fn push_block(
    meaning: &Meaning,
    strategy: Strategy,
    block: Block,
    runs: &[Run],
    have: &[u8],
    want: &[u8],
    lines: &mut Vec<PlanLine>,
) -> Result<(), AllocError>
    requires lengths { length have.now ≡ length want.now }
    requires count { length want.now ≡ block.size }
    requires block { MayErase meaning.now strategy block }
    ensures { IfOk result (λ _. lines.new.items ≡ lines.old.items
        ++ block_lines meaning.now strategy (due_in meaning.now have.now want.now block.start)
        block runs.now) }
{
    lines.push(PlanLine::Erase {
        start: block.start,
        size: block.size,
        opcode: erase_opcode(meaning, strategy, block),
    })?;
    push_reasons(meaning, strategy, block, have, want, lines)?;
    push_runs(runs, lines)
}

/// Appends the lines of runs.
fn push_runs(runs: &[Run], lines: &mut Vec<PlanLine>) -> Result<(), AllocError>
    ensures { IfOk result (λ _. lines.new.items ≡ lines.old.items ++ map run_line runs.now) }
{
    for run in runs {
        lines.push(PlanLine::Program {
            start: run.at,
            count: run.len,
        })?;
    }
    Ok(())
}
