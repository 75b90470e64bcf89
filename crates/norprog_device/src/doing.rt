//! A window of the steps of a script, done by a device.

ghost use Rattle.std.specs.Prelude.{◌≡◌, ◌+◌, ◌<◌, ◌^◌, All, IfOk, IfErr, length};
ghost use Rattle.nor_base.specs.Wire.{wire};
ghost use Rattle.nor_serprog.specs.Done.{HasDoneAll, IsDoable};
ghost use Rattle.norprog_device.specs.Doing.{HaltsIn, stop_at};

use crate::failure::Failure;
use crate::reported::failure_at;
use nor_base::{ByteIn, ByteOut, Meaning, Step};
use nor_flasher::{Progress, do_part};
use nor_serprog::Limits;
use std::marker::Model;

/// How a device does steps.
#[derive(Drop)]
pub struct Doing<'a> {
    /// What it can do.
    pub limits: &'a Limits,
    /// Most status reads of one poll.
    pub turns: u64,
    /// The chip's meaning.
    pub meaning: &'a Meaning,
}

impl<'a> Model for Doing<'a> {
    ghost use Rattle.norprog_device.specs.Doing.{Doing};

    ghost Value = { Doing };

    ghost view = { λ d. record {
      limits = d.limits.now;
      turns = d.turns;
      m = d.meaning.now;
    } };
}

/// Where the steps of a script stop.
#[derive(Clone, Copy)]
pub struct Stop {
    /// The first that isn't done, counted from 0.
    pub step: u64,
    /// Why.
    pub why: Failure,
}

/// Has a device do the steps of a window, before which it did so many. `far` goes on, and its line
/// stays open.
pub fn do_window<R: ByteIn, W: ByteOut, P: ByteOut>(
    from: &mut R,
    to: &mut W,
    doing: &Doing<'_>,
    before: u64,
    steps: &[Step],
    far: &mut Progress,
    progress: &mut P,
) -> Result<(), Stop>
    requires few { before + length steps.now < 2 ^ 64 }
    requires form { All IsDoable steps.now }
    ensures done { IfOk result (λ _. HasDoneAll (wire (W.held to.old) (R.ahead from.old))
        (wire (W.held to.new) (R.ahead from.new)) doing.now.limits doing.now.turns steps.now) }
    ensures stopped { IfErr result (λ stop. (halts : HaltsIn doing.now
        (wire (W.held to.old) (R.ahead from.old)) (wire (W.held to.new) (R.ahead from.new))
        steps.now) × (stop ≡ stop_at (before + halts.halt.step) halts.why)) }
{
    match do_part(from, to, doing.limits, doing.turns, steps, far, progress) {
        Ok(()) => Ok(()),
        Err(halt) => Err(Stop {
            why: failure_at(doing.meaning, steps, halt),
            step: before + halt.step,
        }),
    }
}
