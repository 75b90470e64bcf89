//! What a row says of all steps.

ghost use Rattle.nor_serprog.specs.Row.{DoneInParts, HaltInSteps};

/// What a device did in two parts it did as a whole; and where it halted in a row, after the steps
/// before it were done, it halted among all steps. The function does nothing: its contract is the
/// law.
pub fn rows()
    ensures parts { DoneInParts }
    ensures halts { HaltInSteps }
{}
