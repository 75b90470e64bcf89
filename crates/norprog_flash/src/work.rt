//! The work on a chip that was read and planned for.

ghost use Rattle.std.specs.Prelude.{◌≡◌, [], All, length};
ghost use Rattle.nor_serprog.specs.Done.{IsDoable};
ghost use Rattle.nor_base.specs.Wire.{wire};
ghost use Rattle.norprog.specs.Stepper.{IsAtWindow, made, steps_by, update_of};
ghost use Rattle.norprog_flash.specs.Survey.{AreSurveyed};
ghost use Rattle.norprog_flash.specs.Worked.{HasPart, ReadsBack, WorksOut, flashing};

use crate::ending::Ending;
use crate::windows::{Steps, do_windows};
use nor_base::{ByteIn, ByteOut};
use nor_flasher::Progress;
use nor_reader::{Mismatch, Pass, ReadBy, for_reading, read_again, read_past};
use nor_serprog::Limits;
use norprog_device::{Doing, failure_by};
use norprog_read::Span;
use std::alloc::Global;
use std::marker::Model;

/// How a chip is read back.
#[derive(Drop)]
pub(crate) struct Back<'a> {
    /// What it must hold.
    pub bytes: &'a [u8],
    /// The part of that which it must give.
    pub part: Span,
    /// By which instruction.
    pub by: ReadBy,
    /// It may be larger than was said: nothing is read past its end.
    pub larger: bool,
}

impl<'a> Model for Back<'a> {
    ghost use Rattle.norprog_flash.specs.Worked.{Back};

    ghost Value = { Back };

    ghost view = { λ b. record {
      bytes = b.bytes.now;
      part = b.part;
      by = b.by;
      larger = b.larger;
    } };
}

/// Has the device do all steps of work that was planned, and then read the chip, which must give
/// the goal's bytes, and end there.
pub(crate) fn do_work<R: ByteIn, W: ByteOut, P: ByteOut>(
    alloc: Global,
    from: &mut R,
    to: &mut W,
    doing: &Doing<'_>,
    steps: Steps<'_>,
    back: &Back<'_>,
    progress: &mut P,
) -> Ending
    requires ready { IsAtWindow steps.stepper × (made steps.stepper ≡ []) }
    requires all { steps.all ≡ length (steps_by (update_of steps.stepper)) }
    requires seen { AreSurveyed doing.now.limits (update_of steps.stepper) steps.survey.last.items }
    requires form { All IsDoable (steps_by (update_of steps.stepper)) }
    requires part { HasPart back.now }
    ensures ends { WorksOut doing.now
        (wire (W.held to.old) (R.ahead from.old)) (wire (W.held to.new) (R.ahead from.new))
        (flashing (steps_by (update_of steps.entry.stepper)) back.now) result }
{
    let transactions = steps.all;
    let mut far = Progress::of(transactions, steps.survey.bytes);
    let stopped = do_windows(alloc, from, to, doing, steps, &mut far, progress);
    far.end(progress);
    if let Err(stop) = stopped {
        return Ending::Failed {
            step: stop.step,
            why: stop.why,
        };
    }
    let reading = for_reading(doing.limits);
    match read_back(from, to, &reading, back, progress) {
        Ok(()) => Ending::Done { transactions },
        Err(why) => Ending::Failed {
            step: transactions,
            why: failure_by(why),
        },
    }
}

/// Has the device read the part of the chip, which must give its bytes, and past its end what one
/// that holds just all of them gives there, unless it may be larger.
fn read_back<R: ByteIn, W: ByteOut, P: ByteOut>(
    from: &mut R,
    to: &mut W,
    limits: &Limits,
    back: &Back<'_>,
    progress: &mut P,
) -> Result<(), Mismatch>
    requires part { HasPart back.now }
    ensures back { ReadsBack limits.now.asked back.now
        (wire (W.held to.old) (R.ahead from.old)) (wire (W.held to.new) (R.ahead from.new)) result }
{
    let part = back.part;
    let bytes = &back.bytes[part.low..part.high];
    read_again(
        from,
        to,
        limits,
        back.by,
        part.low as u32,
        bytes,
        Pass::Last,
        progress,
    )?;
    if back.larger {
        return Ok(());
    }
    read_past(from, to, limits, back.by, back.bytes)
}
