//! What a sheet and the lines that `norprog sfdp` prints say of each other.

ghost use Rattle.norprog_laws.specs.Laws.{PrintedIsSheet};

/// What `sfdp` prints of a meaning is a sheet of just this meaning, except for what `sfdp` doesn't
/// print: the quad program 32h and the profile of erased bytes, which a sheet hasn't.
pub fn printed_sheets()
    ensures { PrintedIsSheet }
{}
