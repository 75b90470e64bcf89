//! All steps of work, looked at before the first is sent.

ghost use Rattle.std.specs.Prelude.{◌≡◌, ◌+◌, ◌<◌, ◌^◌, [], ℕ, length, IfOk, IfErr};
ghost use Rattle.nor_serprog.specs.Steps.{AreCarried, IsFirstNotCarried};
ghost use Rattle.norprog.specs.Stepper.{IsAtWindow, made, steps_by, update_of};
ghost use Rattle.norprog_flash.specs.Survey.{AreSurveyed, IsUnbegun};
ghost use Rattle.norprog_flash.specs.declared.survey.Unbegun.TheVariants as unbegun;

use nor_base::Step;
use nor_flasher::bus_bytes;
use nor_serprog::{Limits, carried};
use norprog::Stepper;
use std::alloc::{AllocError, Global};

/// What is known of the steps of work that a device can do.
#[derive(Drop)]
pub struct Survey {
    /// Their bytes on the bus.
    pub bytes: u64,
    /// Those that come after the last window.
    pub last: Vec<Step>,
}

/// Why the steps of work aren't begun.
#[derive(Clone, Copy)]
pub enum Unbegun {
    /// The first that the device can't do, counted from 0.
    Carried(u64),
    /// A growth was refused.
    Memory,
}

impl From<AllocError> for Unbegun {
    ghost from_gives = { λ _ why. why ≡ unbegun.Memory };

    fn from(_error: AllocError) -> Unbegun {
        Unbegun::Memory
    }
}

/// Makes all steps of work, of which `all` is the number, and looks whether a device can do each.
pub(crate) fn look_through(
    alloc: Global,
    stepper: Stepper<'_>,
    limits: &Limits,
    all: u64,
) -> Result<Survey, Unbegun>
    requires ready { IsAtWindow stepper × (made stepper ≡ []) }
    requires all { all ≡ length (steps_by (update_of stepper)) }
    ensures seen { IfOk result
        (λ seen. AreSurveyed limits.now (update_of stepper.entry) seen.last.items) }
    ensures unbegun { IfErr result
        (IsUnbegun limits.now (steps_by (update_of stepper.entry))) }
{
    let mut stepper = stepper;
    let mut seen: u64 = 0;
    let mut bytes: u64 = 0;
    while stepper.has_more() {
        let steps = stepper.next_window(alloc)?;
        look(steps.as_slice(), limits, seen)?;
        bytes = bytes.saturating_add(bus_bytes(steps.as_slice()));
        seen += steps.len() as u64;
    }
    let last = stepper.close(alloc)?;
    look(last.as_slice(), limits, seen)?;
    let bytes = bytes.saturating_add(bus_bytes(last.as_slice()));
    Ok(Survey { bytes, last })
}

/// Looks whether a device can do each of some steps, before which so many stand.
fn look(steps: &[Step], limits: &Limits, before: u64) -> Result<(), Unbegun>
    requires few { before + length steps.now < 2 ^ 64 }
    ensures all { IfOk result (λ _. AreCarried limits.now steps.now) }
    ensures none { IfErr result (λ why. (at : ℕ) × IsFirstNotCarried limits.now steps.now at
        × (why ≡ unbegun.Carried (before + at))) }
{
    match carried(steps, limits) {
        Ok(()) => Ok(()),
        Err(step) => Err(Unbegun::Carried(before + step)),
    }
}
