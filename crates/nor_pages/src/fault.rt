//! Why runs are not given.

ghost use Rattle.std.specs.Prelude.{◌≡◌};
ghost use Rattle.nor_pages.specs.declared.fault.PagesFault.TheVariants.{Memory};

use std::alloc::{AllocError, AllocFailed};
use thiserror::Error;

/// Why runs are not given.
#[derive(Clone, Copy, Debug, PartialEq, Eq, Error)]
pub enum PagesFault {
    /// A growth of memory was refused.
    #[error("out of memory")]
    Memory,
}

impl From<AllocError> for PagesFault {
    ghost from_gives = { λ _ fault. fault ≡ Memory };

    fn from(_error: AllocError) -> PagesFault {
        PagesFault::Memory
    }
}

impl<T: Drop> From<AllocFailed<T>> for PagesFault {
    ghost from_gives = { λ _ fault. fault ≡ Memory };

    fn from(_error: AllocFailed<T>) -> PagesFault {
        PagesFault::Memory
    }
}
