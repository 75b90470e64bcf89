//! Why a device can't be used.

use nor_serprog::{Fault, GreetFault};

/// Why a device can't be used.
#[derive(Clone, Copy, PartialEq, Eq, Drop)]
pub enum DeviceFault {
    /// The handshake with it ended early.
    Greet(GreetFault),
    /// The test of the line to it did.
    Line(Fault),
}
