//! How work on a chip ends.

ghost use Rattle.std.specs.Prelude.{◌≡◌};
ghost use Rattle.nor_job.specs.declared.fault.BuildFault.TheVariants.{Memory};
ghost use Rattle.norprog_common.specs.declared.faults.Refusal.TheVariants.{Build};
ghost use Rattle.norprog_flash.specs.Stops.{of_reading};
ghost use Rattle.norprog_flash.specs.declared.ending.Unflashed.TheVariants as unflashed;

use crate::compared::Comparison;
use norprog_common::Refusal;
use norprog_device::Failure;
use norprog_read::{DeviceFault, Unlike, Unread};

/// How work on a chip ends.
#[derive(Clone, Copy, PartialEq, Eq, Drop)]
pub enum Ending {
    /// Nothing is to be done but the plan.
    Planned,
    /// Nothing is to be done but to compare.
    Compared(Comparison),
    /// Each step was done, and then the chip gave just what it must hold.
    Done {
        /// The steps.
        transactions: u64,
    },
    /// A step wasn't done.
    Failed {
        /// The step, counted from 0; the number of steps where the chip isn't known to hold what
        /// they leave.
        step: u64,
        /// Why: at `Carried` no step was sent, at `Memory` none from this one on.
        why: Failure,
    },
}

/// Why nothing that changes the chip was sent.
#[derive(Drop)]
pub enum Unflashed {
    /// As other commands are refused.
    Refused(Refusal),
    /// The device can't be used.
    Device(DeviceFault),
    /// The chip didn't say or give what it has to.
    Unlike(Unlike),
    /// Its status, S23 to S0 or of a part of which nothing is known S7 to S0, shows that it can't
    /// take the work.
    Closed(u32),
}

impl From<Unread> for Unflashed {
    ghost from_gives = { λ stop why. why ≡ of_reading stop };

    fn from(why: Unread) -> Unflashed {
        match why {
            Unread::Refused(refusal) => Unflashed::Refused(refusal),
            Unread::Device(fault) => Unflashed::Device(fault),
            Unread::Unlike(unlike) => Unflashed::Unlike(unlike),
        }
    }
}

impl From<Refusal> for Unflashed {
    ghost from_gives = { λ refusal why. why ≡ unflashed.Refused refusal };

    fn from(refusal: Refusal) -> Unflashed {
        Unflashed::Refused(refusal)
    }
}
