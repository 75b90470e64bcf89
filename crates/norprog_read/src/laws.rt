//! What it says of a terminal that what came shows the line.

ghost use Rattle.norprog_read.specs.Laws.{ShownLineKeeps};

/// A terminal that is set to strip, to make small letters, or to turn carriage returns or line
/// feeds, but not both, changed nothing of what was read where what came shows the line.
pub fn shown_line_keeps()
    ensures { ShownLineKeeps }
{}
