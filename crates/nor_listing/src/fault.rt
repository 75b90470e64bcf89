//! Why a text is no listing.

ghost use Rattle.std.specs.Prelude.{◌≡◌};
ghost use Rattle.nor_listing.specs.declared.fault.ListFault.TheVariants.{Memory};

use std::alloc::{AllocError, AllocFailed};
use thiserror::Error;

/// Why a text is no listing. Lines count from 1.
#[derive(Clone, Copy, Debug, PartialEq, Eq, Error)]
pub enum ListFault {
    /// A line isn't the one that a listing has there.
    #[error("listing line {0}: not a line of a listing of this chip and mode")]
    BadLine(u64),
    /// A growth of memory was refused.
    #[error("out of memory")]
    Memory,
}

impl From<AllocError> for ListFault {
    ghost from_gives = { λ _ fault. fault ≡ Memory };

    fn from(_error: AllocError) -> ListFault {
        ListFault::Memory
    }
}

impl<T: Drop> From<AllocFailed<T>> for ListFault {
    ghost from_gives = { λ _ fault. fault ≡ Memory };

    fn from(_error: AllocFailed<T>) -> ListFault {
        ListFault::Memory
    }
}
