//! What can go wrong with a transaction or a run.

use thiserror::Error;

/// Why a chip didn't do what a script asks of it.
#[derive(Clone, Copy, Debug, PartialEq, Eq, Drop)]
pub enum Wrong {
    /// The chip ignores the instruction: it is broken or comes while the chip is busy, without the
    /// latch or without the quad setting.
    Ignored = 1,
    /// The chip knows no such instruction, or a poll or a verifying read has clocks that none may
    /// have.
    Unknown = 2,
    /// A program has a 1 where the array has a 0, on a chip where bytes that aren't erased may be
    /// programmed.
    Raised = 3,
    /// An address or a read past the chip's size, or an erase that starts no legal block of its
    /// kind.
    OutOfRange = 4,
    /// The bytes sampled aren't those expected.
    Mismatch = 5,
    /// A poll said busy each time that it was tried.
    PollNever = 6,
    /// At the end the chip is busy, or the latch is set, or the address mode isn't the first one.
    NotIdleAtEnd = 7,
    /// A program covers a byte that isn't FFh, on a chip where only erased bytes are programmed.
    NotErased = 8,
}

/// Why a port didn't do a transaction.
#[derive(Clone, Copy, Debug, PartialEq, Eq, Drop, Error)]
pub enum PortFault {
    /// The chip behind the port goes wrong so.
    #[error("the chip goes wrong: {0:?}")]
    Wrong(Wrong),
    /// The port itself failed.
    #[error("the port failed")]
    Failed,
}
