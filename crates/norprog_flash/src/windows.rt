//! The steps of work, made and done window after window.

ghost use Rattle.std.specs.Prelude.{◌≡◌, ◌<◌, ◌^◌, [], All, IfOk, IfErr, length};
ghost use Rattle.nor_base.specs.Wire.{wire};
ghost use Rattle.nor_serprog.specs.Done.{HasDoneAll, IsDoable};
ghost use Rattle.norprog.specs.Stepper.{IsAtWindow, made, steps_by, update_of};
ghost use Rattle.norprog_device.specs.Doing.{StopsSteps};
ghost use Rattle.norprog_flash.specs.Survey.{AreSurveyed};

use crate::survey::Survey;
use nor_base::{ByteIn, ByteOut};
use nor_flasher::Progress;
use nor_serprog::rows;
use norprog::Stepper;
use norprog_device::{Doing, Failure, Stop, do_window};
use std::alloc::Global;

/// The steps of work, each of which a device can do.
#[derive(Drop)]
pub(crate) struct Steps<'a> {
    /// It makes them.
    pub stepper: Stepper<'a>,
    /// How many they are.
    pub all: u64,
    /// What is known of them.
    pub survey: Survey,
    ghost few: { all < 2 ^ 64 },
}

/// Has the device do all steps of work, those of one window after those of another. Only these are
/// in memory at once.
pub(crate) fn do_windows<R: ByteIn, W: ByteOut, P: ByteOut>(
    alloc: Global,
    from: &mut R,
    to: &mut W,
    doing: &Doing<'_>,
    steps: Steps<'_>,
    far: &mut Progress,
    progress: &mut P,
) -> Result<(), Stop>
    requires ready { IsAtWindow steps.stepper × (made steps.stepper ≡ []) }
    requires all { steps.all ≡ length (steps_by (update_of steps.stepper)) }
    requires seen { AreSurveyed doing.now.limits (update_of steps.stepper) steps.survey.last.items }
    requires form { All IsDoable (steps_by (update_of steps.stepper)) }
    ensures done { IfOk result (λ _. HasDoneAll (wire (W.held to.old) (R.ahead from.old))
        (wire (W.held to.new) (R.ahead from.new)) doing.now.limits doing.now.turns
        (steps_by (update_of steps.entry.stepper))) }
    ensures stopped { IfErr result
        (StopsSteps doing.now (wire (W.held to.old) (R.ahead from.old))
        (wire (W.held to.new) (R.ahead from.new)) (steps_by (update_of steps.entry.stepper))) }
{
    rows();
    let mut stepper = steps.stepper;
    let last = steps.survey.last.as_slice();
    let windows = steps.all - last.len() as u64;
    let mut done: u64 = 0;
    while done < windows {
        let Ok(window) = stepper.next_window(alloc) else {
            let why = Failure::Memory;
            return Err(Stop { step: done, why });
        };
        do_window(from, to, doing, done, window.as_slice(), far, progress)?;
        done += window.len() as u64;
    }
    do_window(from, to, doing, done, last, far, progress)
}
