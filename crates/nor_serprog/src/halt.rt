//! Where a device stops among steps.

use crate::fault::Reason;

/// At which step a device stopped, and why.
#[derive(Clone, Copy, Debug, PartialEq, Eq)]
pub struct Halt {
    /// The step, counted from 0. Those before it were done.
    pub step: u64,
    /// Why it stopped at it.
    pub why: Reason,
}
