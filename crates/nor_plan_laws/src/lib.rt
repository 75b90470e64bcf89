//! The law behind the whole project: planned work does the task on every chip, and no script erases
//! less. Each function does nothing: its contract is the law, and the gate proves it. A law of
//! planned work is of an accepted meaning and each start, so of each strategy, and of a content and
//! a target of the chip's size, the target of bytes, without an address at fault.
#![tactic(auto)]

ghost use Rattle.nor_plan_laws.specs.Laws.{PlannedDoesTask, OneUnitInTheMaking};
ghost use Rattle.nor_plan_laws.specs.Able.{OperationIsDone, SmallestAgree, BlocksStay, PagesStay};
ghost use Rattle.nor_plan_laws.specs.Exists.{PlannedCanBeSpelled, ThereIsPlannedWork};
ghost use Rattle.nor_plan_laws.specs.Exists.{OnePlannedWork};
ghost use Rattle.nor_plan_laws.specs.Least.{ErasesNeeded, ErasesBlocks, ErasesApart, ErasesLargest};
ghost use Rattle.nor_plan_laws.specs.Least.{UnitsJoin, NoScriptErasesLess};
ghost use Rattle.nor_plan_laws.specs.Fewest.{NoScriptProgramsLess, NoneOnEveryChip, OneServesTwo};
ghost use Rattle.nor_plan_laws.specs.Fewest.{NoScriptHasFewerErases};
ghost use Rattle.nor_plan_laws.specs.Runs.{PlannedErasesNeeded, ErasesOnce, ErasesCounted};
ghost use Rattle.nor_plan_laws.specs.Runs.{ProgramsCounted, PlannedIsVerified, NoneVerifies};
ghost use Rattle.nor_plan_laws.specs.Runs.{ErasedBytes};
ghost use Rattle.nor_plan_laws.specs.Small.{SmallIsWorkable, SmallWorkErases};

use nor_laws::{instruction_rows, spelling};

/// Planned work does the task on every chip, and after each of its transactions at most one unit is
/// in the making.
pub fn planned_work()
    ensures done { PlannedDoesTask }
    ensures making { OneUnitInTheMaking }
{}

/// The chip has each planned instruction, in the mode at its place, and each fits its clocks. So
/// there are steps that are the planned work, and only one list of them.
pub fn there_is_planned_work()
    ensures spelled { PlannedCanBeSpelled }
    ensures some { ThereIsPlannedWork }
    ensures one { OnePlannedWork }
{
    instruction_rows();
    spelling();
}

/// An address is erased exactly where it is needed. The erased blocks are legal and reached, two of
/// them are apart or one, and each legal block that the strategy reaches inside the needed area
/// lies in one of them.
pub fn erased_blocks()
    ensures needed { ErasesNeeded }
    ensures blocks { ErasesBlocks }
    ensures apart { ErasesApart }
    ensures largest { ErasesLargest }
{}

/// On a chip at rest, which can do it over what the array holds, the instructions of an operation
/// do what it does to the array, and leave the chip at rest.
pub fn operations()
    ensures { OperationIsDone }
{}

/// The smallest block that the strategy reaches at an address, where it reaches that, is the
/// smallest legal one there, except for its kind. No legal block and no page lies across 2^24.
pub fn blocks()
    ensures smallest { SmallestAgree }
    ensures blocks { BlocksStay }
    ensures pages { PagesStay }
{}

/// The units of two stretches of pages side by side are those of the whole stretch.
pub fn units_join()
    ensures { UnitsJoin }
{}

/// No script erases less: whatever does the task, on any chip, erases each needed address.
pub fn least_erasure()
    ensures { NoScriptErasesLess }
{}

/// No script has fewer programs: whatever does the task, on a chip with the meaning's own page,
/// programs as often as the planned work at least. That is so without the profile of erased bytes;
/// with it one program may go round a page and serve two pieces.
pub fn fewest_programs()
    ensures fewest { NoScriptProgramsLess }
    ensures every { NoneOnEveryChip }
    ensures wraps { OneServesTwo }
{}

/// No script that erases just the needed area has fewer erases, where each is one that the strategy
/// has.
pub fn fewest_erases()
    ensures { NoScriptHasFewerErases }
{}

/// What a run of planned work shows, on every chip. It erases just the needed area, each address
/// once, and it erases and programs as often as the units do. Where the work is verified each
/// address that it erases or programs is read later, against the target; else no step verifies,
/// also where an address is at fault.
pub fn planned_runs()
    ensures exact { PlannedErasesNeeded }
    ensures once { ErasesOnce }
    ensures erases { ErasesCounted }
    ensures programs { ProgramsCounted }
    ensures verified { PlannedIsVerified }
    ensures unverified { NoneVerifies }
{}

/// The units' blocks have as many bytes as addresses are needed.
pub fn erased_bytes()
    ensures { ErasedBytes }
{
    there_is_planned_work();
}

/// Of 8 KiB in sectors of 4 KiB, with one byte that must rise: the laws' premise holds, and there
/// is planned work, which does the task on every chip and erases the first sector and no more.
pub fn small_work()
    ensures workable { SmallIsWorkable }
    ensures erases { SmallWorkErases }
{
    there_is_planned_work();
}
