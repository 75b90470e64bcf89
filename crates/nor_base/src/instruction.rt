//! The instructions that a chip knows.

/// What a transaction is to a chip: a row of the instruction table, or a known opcode in no row's
/// form.
#[derive(Clone, Copy, Debug)]
pub enum What {
    /// Write enable (06h): sets the latch.
    Enable,
    /// Write disable (04h): clears the latch.
    Disable,
    /// Read status register 1 (05h).
    Status,
    /// Enter four-byte address mode (B7h).
    Enter,
    /// Leave four-byte address mode (E9h).
    Leave,
    /// Erase a block of this kind, from 1 to 4.
    Erase(u8),
    /// Page program on one lane.
    Program,
    /// Page program with its data on four lanes.
    QuadProgram,
    /// Read data on one lane.
    Read,
    /// Read data on four lanes after dummy clocks.
    QuadRead,
    /// A known opcode whose clocks aren't those of its row.
    Broken,
}
