//! A unit of the work.

use crate::block::Block;

/// A unit: what is erased and written as one.
#[derive(Clone, Copy)]
pub enum PlanUnit {
    /// A block is erased, and its pages are written.
    Block(Block),
    /// A page outside all erased blocks is written.
    Page {
        /// The address of its first byte.
        start: u32,
    },
}
