//! What follows only from the definitions. The function does nothing: its contract is the law.

ghost use Rattle.nor_check.specs.Witness.{EachNoIsShown, FewReads};
ghost use Rattle.nor_check.specs.Worst.{OneWorst};

use nor_laws::{polls, verifying_reads};

/// A script has just one worst verdict on all chips.
pub fn one_verdict()
    ensures { OneWorst }
{}

/// A no is shown by one chip whose programs and erases are all busy for the same number of status
/// reads: any above that of the status reads right before the step. It has some page that may be,
/// and keeps a set latch just where the steps go wrong at their end.
pub fn each_no_is_shown()
    ensures shown { EachNoIsShown }
    ensures few { FewReads }
{
    polls();
    verifying_reads();
}
