//! Why a layout is refused.

ghost use Rattle.std.specs.Prelude.{◌≡◌};
ghost use Rattle.nor_layout.specs.declared.fault.LayoutFault.TheVariants.{Memory};

use std::alloc::{AllocError, AllocFailed};
use thiserror::Error;

/// Why a layout, or a choice of its regions, is refused. Lines count from 1; those that are skipped
/// count too.
#[derive(Clone, Copy, Debug, PartialEq, Eq, Error)]
pub enum LayoutFault {
    /// A line isn't two fields separated by blanks or tabs, or its first field hasn't exactly one
    /// `:`.
    #[error("layout line {0}: not start:end name")]
    BadLine(u64),
    /// A number isn't 1 to 8 hexadecimal digits after an optional `0x` or `0X`.
    #[error("layout line {0}: bad number")]
    BadNumber(u64),
    /// A region's end lies before its start.
    #[error("layout line {0}: the end lies before the start")]
    EndBeforeStart(u64),
    /// A line above has a region of the same name, byte for byte.
    #[error("layout line {0}: the name stands above")]
    RepeatedName(u64),
    /// A line has the 256th region.
    #[error("layout line {0}: more than 255 regions")]
    TooMany(u64),
    /// The chosen name with this index, counted from 0, is the first that no region has.
    #[error("chosen name {0}: no such region")]
    UnknownRegion(u64),
    /// A growth of memory was refused.
    #[error("out of memory")]
    Memory,
}

impl From<AllocError> for LayoutFault {
    ghost from_gives = { λ _ fault. fault ≡ Memory };

    fn from(_error: AllocError) -> LayoutFault {
        LayoutFault::Memory
    }
}

impl<T: Drop> From<AllocFailed<T>> for LayoutFault {
    ghost from_gives = { λ _ fault. fault ≡ Memory };

    fn from(_error: AllocFailed<T>) -> LayoutFault {
        LayoutFault::Memory
    }
}
