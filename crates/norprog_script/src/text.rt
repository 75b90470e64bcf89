//! The text of steps that are at hand.

ghost use Rattle.std.specs.List.{AllByRecursion};
ghost use Rattle.nor_base.specs.Device.{Writes, Counts};
ghost use Rattle.nor_base.specs.Script.{script_text};
ghost use Rattle.nor_base.specs.Step.{IsStep};

use nor_base::{ByteOut, Failed, Step};
use nor_script::{begin, finish, write_step};

/// Writes the script of steps that a script may have. It takes no memory.
///
/// At `Failed` a proper prefix was taken; it comes only from the writer, whose count of failures
/// rose by one.
pub fn write_script<W: ByteOut>(steps: &[Step], out: &mut W) -> Result<(), Failed>
    requires steps { AllByRecursion IsStep steps.now }
    ensures bytes { Writes (W.held out.old) (W.held out.new) result (script_text steps.now) }
    ensures count { Counts (W.count out.old) (W.count out.new) result }
{
    begin(out)?;
    for step in steps {
        write_step(step, out)?;
    }
    finish(steps.len() as u64, out)
}
