//! What the times of a plan's lines are to its work and its script. Each function does nothing: its
//! contract is the law, of an accepted meaning, and of a content and a target of the chip's size of
//! which no address is at fault.

ghost use Rattle.nor_times.specs.Law.{BusIsOfScript, BusyIsOfUnits, ErasesAreNamed, PlanIsText};

use nor_laws::instruction_rows;
use nor_plan_laws::{blocks, erased_blocks};

/// The clocks that [`crate::PlanTimes`] reports of the lines of a plan are those of the steps of
/// its script, verified or not; each poll counts once.
pub fn clocks_of_script()
    ensures { BusIsOfScript }
{
    blocks();
    erased_blocks();
}

/// The text of a plan is that of its lines.
pub fn text_of_plan()
    ensures { PlanIsText }
{}

/// The opcode that erases a legal block that the strategy reaches, as each erased block of a plan
/// is, names the block's kind and no other: the erase takes the time of that kind.
pub fn erases_are_named()
    ensures { ErasesAreNamed }
{
    instruction_rows();
}

/// The busy time that [`crate::PlanTimes`] reports of the lines of a plan is that of its units: of
/// each erase by its block's kind, and of each program by its bytes.
pub fn busy_of_units()
    ensures { BusyIsOfUnits }
{
    erased_blocks();
    erases_are_named();
}
