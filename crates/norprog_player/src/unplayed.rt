//! Why a script isn't played.

ghost use Rattle.std.specs.Prelude.{◌≡◌};
ghost use Rattle.nor_job.specs.declared.fault.BuildFault.TheVariants.{Memory};
ghost use Rattle.norprog_common.specs.declared.faults.Refusal.TheVariants.{Build};
ghost use Rattle.norprog_player.specs.declared.unplayed.Unplayed.TheVariants as unplayed;

use norprog_common::Refusal;
use norprog_device::DeviceFault;
use std::alloc::AllocError;

/// Why a script isn't played.
#[derive(Drop)]
pub enum Unplayed {
    /// As other commands are refused.
    Refused(Refusal),
    /// The device can't be used.
    Device(DeviceFault),
}

impl From<Refusal> for Unplayed {
    ghost from_gives = { λ refusal why. why ≡ unplayed.Refused refusal };

    fn from(refusal: Refusal) -> Unplayed {
        Unplayed::Refused(refusal)
    }
}

impl From<DeviceFault> for Unplayed {
    ghost from_gives = { λ fault why. why ≡ unplayed.Device fault };

    fn from(fault: DeviceFault) -> Unplayed {
        Unplayed::Device(fault)
    }
}

impl From<AllocError> for Unplayed {
    ghost from_gives = { λ _ why. why ≡ unplayed.Refused (Build Memory) };

    fn from(_error: AllocError) -> Unplayed {
        Unplayed::Refused(Refusal::MEMORY)
    }
}
