//! Why a play stops.

ghost use Rattle.std.specs.Prelude.{◌≡◌};
ghost use Rattle.nor_play.specs.Halt.{halt_of, play_fault};
ghost use Rattle.nor_play.specs.declared.fault.Halt.TheVariants.{Memory};

use nor_base::{PortFault, Wrong};
use std::alloc::AllocError;
use thiserror::Error;

/// Why a play stops. Steps count from 0; a fault at the end has the number of steps.
#[derive(Clone, Copy, Debug, PartialEq, Eq, Error)]
pub enum PlayFault {
    /// The chip goes wrong so at this step, or at the end.
    #[error("step {step}: the chip goes wrong: {why:?}")]
    Wrong {
        /// The step.
        step: u64,
        /// How it goes wrong.
        why: Wrong,
    },
    /// The port failed in a transaction of this step.
    #[error("step {step}: the port failed")]
    PortFailed {
        /// The step.
        step: u64,
    },
    /// A growth of memory was refused.
    #[error("out of memory")]
    Memory,
}

/// Why a step stops, before its number is known.
#[derive(Clone, Copy, Drop)]
pub(crate) enum Halt {
    Wrong(Wrong),
    Failed,
    Memory,
}

impl Halt {
    /// The fault of this and the step's number.
    pub(crate) fn at(self, step: u64) -> PlayFault
        ensures { result ≡ play_fault self step }
    {
        match self {
            Halt::Wrong(why) => PlayFault::Wrong { step, why },
            Halt::Failed => PlayFault::PortFailed { step },
            Halt::Memory => PlayFault::Memory,
        }
    }
}

impl From<PortFault> for Halt {
    ghost from_gives = { λ fault halt. halt ≡ halt_of fault };

    fn from(fault: PortFault) -> Halt {
        match fault {
            PortFault::Wrong(why) => Halt::Wrong(why),
            PortFault::Failed => Halt::Failed,
        }
    }
}

impl From<AllocError> for Halt {
    ghost from_gives = { λ _ halt. halt ≡ Memory };

    fn from(_error: AllocError) -> Halt {
        Halt::Memory
    }
}
