//! Why a line of a layout is refused, before its number is known.

ghost use Rattle.std.specs.Prelude.{◌≡◌};
ghost use Rattle.nor_layout.specs.Cause.{fault_of};

use crate::fault::LayoutFault;

/// Why a line is refused. Of the causes that a line has the first in this order is reported.
#[derive(Clone, Copy)]
pub(crate) enum Cause {
    BadLine,
    BadNumber,
    EndBeforeStart,
    RepeatedName,
    TooMany,
}

impl Cause {
    /// The fault of this cause and the line's number.
    pub(crate) fn at(self, line: u64) -> LayoutFault
        ensures { result ≡ fault_of self line }
    {
        match self {
            Cause::BadLine => LayoutFault::BadLine(line),
            Cause::BadNumber => LayoutFault::BadNumber(line),
            Cause::EndBeforeStart => LayoutFault::EndBeforeStart(line),
            Cause::RepeatedName => LayoutFault::RepeatedName(line),
            Cause::TooMany => LayoutFault::TooMany(line),
        }
    }
}
