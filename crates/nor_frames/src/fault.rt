//! Why clocks are not given.

ghost use Rattle.std.specs.Prelude.{◌≡◌};
ghost use Rattle.nor_frames.specs.declared.fault.FramesFault.TheVariants.{Memory};

use std::alloc::{AllocError, AllocFailed};
use thiserror::Error;

/// Why clocks are not given.
#[derive(Clone, Copy, Debug, PartialEq, Eq, Error)]
pub enum FramesFault {
    /// A growth of memory was refused.
    #[error("out of memory")]
    Memory,
}

impl From<AllocError> for FramesFault {
    ghost from_gives = { λ _ fault. fault ≡ Memory };

    fn from(_error: AllocError) -> FramesFault {
        FramesFault::Memory
    }
}

impl<T: Drop> From<AllocFailed<T>> for FramesFault {
    ghost from_gives = { λ _ fault. fault ≡ Memory };

    fn from(_error: AllocFailed<T>) -> FramesFault {
        FramesFault::Memory
    }
}
