//! The steps of a script, done by a device window after window.

ghost use Rattle.std.specs.Prelude.{All, IfErr, IfOk};
ghost use Rattle.nor_base.specs.Wire.{wire};
ghost use Rattle.nor_serprog.specs.Done.{HasDoneAll, IsDoable};
ghost use Rattle.norprog_device.specs.Doing.{StopsSteps};

use nor_base::{ByteIn, ByteOut};
use nor_flasher::{PackedSteps, Progress};
use nor_serprog::rows;
use norprog_device::{Doing, Failure, Stop, do_window};
use std::alloc::Global;

/// Has the device do steps, of which those of a window are in memory with their clocks. How many
/// are done is written to `progress`.
pub(crate) fn do_steps<R: ByteIn, W: ByteOut, P: ByteOut>(
    alloc: Global,
    from: &mut R,
    to: &mut W,
    doing: &Doing<'_>,
    steps: &PackedSteps,
    progress: &mut P,
) -> Result<(), Stop>
    requires form { All IsDoable steps.now }
    ensures done { IfOk result (λ _. HasDoneAll (wire (W.held to.old) (R.ahead from.old))
        (wire (W.held to.new) (R.ahead from.new)) doing.now.limits doing.now.turns steps.now) }
    ensures stopped { IfErr result
        (StopsSteps doing.now (wire (W.held to.old) (R.ahead from.old))
        (wire (W.held to.new) (R.ahead from.new)) steps.now) }
{
    let mut far = Progress::of(steps.len() as u64, steps.bus_bytes());
    let stopped = do_windows(alloc, from, to, doing, steps, &mut far, progress);
    far.end(progress);
    stopped
}

/// The same, of which so much is done.
fn do_windows<R: ByteIn, W: ByteOut, P: ByteOut>(
    alloc: Global,
    from: &mut R,
    to: &mut W,
    doing: &Doing<'_>,
    steps: &PackedSteps,
    far: &mut Progress,
    progress: &mut P,
) -> Result<(), Stop>
    requires form { All IsDoable steps.now }
    ensures done { IfOk result (λ _. HasDoneAll (wire (W.held to.old) (R.ahead from.old))
        (wire (W.held to.new) (R.ahead from.new)) doing.now.limits doing.now.turns steps.now) }
    ensures stopped { IfErr result
        (StopsSteps doing.now (wire (W.held to.old) (R.ahead from.old))
        (wire (W.held to.new) (R.ahead from.new)) steps.now) }
{
    rows();
    let mut ahead = steps.unpack();
    while ahead.has_more() {
        let done = (steps.len() - ahead.len()) as u64;
        let Ok(window) = ahead.next_window(alloc) else {
            let why = Failure::Memory;
            return Err(Stop { step: done, why });
        };
        do_window(from, to, doing, done, window.as_slice(), far, progress)?;
    }
    Ok(())
}
