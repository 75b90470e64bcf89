//! A line of a plan.

/// A line of a plan.
#[derive(Clone, Copy)]
pub enum PlanLine {
    /// A block is erased: its start and its size in bytes, and the opcode that is sent.
    Erase { start: u32, size: u32, opcode: u8 },
    /// Why: the start of a smallest block in it, and the lowest address in that which must be
    /// erased.
    Because { start: u32, cause: u32 },
    /// A run is programmed: its first address, and its bytes.
    Program { start: u32, count: u32 },
}
