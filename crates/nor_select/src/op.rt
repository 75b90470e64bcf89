//! Operations on a chip's array.

use nor_geometry::Block;

/// An operation on a chip's array. Addresses are bytes from 0 on.
#[derive(Clone, Copy)]
pub enum Op<'a> {
    /// Sets each bit of a block.
    Erase(Block),
    /// Programs bytes, from an address on, within a page.
    Program {
        /// The address of the first byte.
        at: u32,
        /// What is programmed.
        bytes: &'a [u8],
    },
    /// Reads as many bytes, from an address on, and expects these.
    Read {
        /// The address of the first byte.
        at: u32,
        /// What is expected.
        bytes: &'a [u8],
    },
}
