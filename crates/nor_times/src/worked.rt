//! Values worked out by hand. Each function does nothing: its contract is the values, and the gate
//! computes them.

ghost use Rattle.nor_times.specs.Worked.{IsTableRead, IsTableAtEnds, AreSumsWorked};
ghost use Rattle.nor_times.specs.Worked.{AreProgramsWorked, AreClocksWorked, AreLinesWorked};

/// What DWORDs 10 and 11 tell: of a chip of 4, 32 and 64 KiB, and at the ends of each field.
pub fn table_worked()
    ensures read { IsTableRead }
    ensures ends { IsTableAtEnds }
{}

/// Sums over plans, and the lines that tell them.
pub fn sums_worked()
    ensures programs { AreProgramsWorked }
    ensures sums { AreSumsWorked }
    ensures clocks { AreClocksWorked }
    ensures lines { AreLinesWorked }
{}
