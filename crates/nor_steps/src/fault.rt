//! Why steps are not written.

ghost use Rattle.std.specs.Prelude.{◌≡◌};
ghost use Rattle.nor_steps.specs.declared.fault.StepsFault.TheVariants.{Memory, Write};
ghost use Rattle.nor_steps.specs.Faults.{lifted_plan};

use nor_base::Failed;
use nor_frames::FramesFault;
use nor_geometry::PlanFault;
use nor_pages::PagesFault;
use nor_select::SelectFault;
use std::alloc::{AllocError, AllocFailed};
use thiserror::Error;

/// Why steps are not written.
#[derive(Clone, Copy, Debug, PartialEq, Eq, Error)]
pub enum StepsFault {
    /// The window has an address at fault; the lowest is named. It is never the planner's `Memory`.
    #[error(transparent)]
    Plan(PlanFault),
    /// The writer failed.
    #[error("the steps could not be written")]
    Write,
    /// A growth of memory was refused.
    #[error("out of memory")]
    Memory,
}

impl From<PlanFault> for StepsFault {
    ghost from_gives = { λ fault lifted. lifted ≡ lifted_plan fault };

    fn from(fault: PlanFault) -> StepsFault {
        match fault {
            PlanFault::Memory => StepsFault::Memory,
            other => StepsFault::Plan(other),
        }
    }
}

impl From<PagesFault> for StepsFault {
    ghost from_gives = { λ _ lifted. lifted ≡ Memory };

    fn from(_fault: PagesFault) -> StepsFault {
        StepsFault::Memory
    }
}

impl From<SelectFault> for StepsFault {
    ghost from_gives = { λ _ lifted. lifted ≡ Memory };

    fn from(_fault: SelectFault) -> StepsFault {
        StepsFault::Memory
    }
}

impl From<FramesFault> for StepsFault {
    ghost from_gives = { λ _ lifted. lifted ≡ Memory };

    fn from(_fault: FramesFault) -> StepsFault {
        StepsFault::Memory
    }
}

impl From<AllocError> for StepsFault {
    ghost from_gives = { λ _ lifted. lifted ≡ Memory };

    fn from(_error: AllocError) -> StepsFault {
        StepsFault::Memory
    }
}

impl<T: Drop> From<AllocFailed<T>> for StepsFault {
    ghost from_gives = { λ _ lifted. lifted ≡ Memory };

    fn from(_error: AllocFailed<T>) -> StepsFault {
        StepsFault::Memory
    }
}

impl From<Failed> for StepsFault {
    ghost from_gives = { λ _ lifted. lifted ≡ Write };

    fn from(_failed: Failed) -> StepsFault {
        StepsFault::Write
    }
}
