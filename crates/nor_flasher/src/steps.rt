//! Steps done by a device.

ghost use Rattle.std.specs.Prelude.{◌↔◌, All, IsTrue};
ghost use Rattle.std.specs.Prelude.{MatchResult};
ghost use Rattle.nor_serprog.specs.declared.fault.Fault.TheVariants.{Read, Write};
ghost use Rattle.nor_serprog.specs.Done.{IsDoable, HasDoneAll};
ghost use Rattle.nor_serprog.specs.Row.{HasHalted, CountsHalt};
ghost use Rattle.nor_base.specs.Wire.{wire};

use crate::progress::{Progress, bus_bytes};
use nor_base::{ByteIn, ByteOut, Step};
use nor_serprog::{Halt, Limits, do_row, is_doable, row_length, rows};

/// Whether [`do_steps`] takes these steps: each is one that [`do_step`](nor_serprog::do_step)
/// takes.
pub fn are_doable(steps: &[Step]) -> bool
    ensures { IsTrue result ↔ All IsDoable steps.now }
{
    steps.iter().all(|step| is_doable(step))
}

/// Has the device do steps, one after the other, row by row, as [`do_row`]. A poll reads the status
/// `turns` times at most.
///
/// How many are done is written to `progress`; where that fails nothing else changes. At the first
/// step that can't be done it stops: the halt has its number, from 0, and the reason.
pub fn do_steps<R: ByteIn, W: ByteOut, P: ByteOut>(
    from: &mut R,
    to: &mut W,
    limits: &Limits,
    turns: u64,
    steps: &[Step],
    progress: &mut P,
) -> Result<(), Halt>
    requires form { All IsDoable steps.now }
    ensures done { MatchResult result
        (λ _. HasDoneAll (wire (W.held to.old) (R.ahead from.old))
        (wire (W.held to.new) (R.ahead from.new))
        limits.now turns steps.now)
        (λ halt. HasHalted (wire (W.held to.old) (R.ahead from.old))
        (wire (W.held to.new) (R.ahead from.new))
        limits.now turns steps.now
        halt) }
    ensures counts { CountsHalt Read (R.count from.old) (R.count from.new) result
        × CountsHalt Write (W.count to.old) (W.count to.new) result }
{
    let mut far = Progress::of(steps.len() as u64, bus_bytes(steps));
    let done = do_part(from, to, limits, turns, steps, &mut far, progress);
    far.end(progress);
    done
}

/// As [`do_steps`], of steps that are a part of the work of which so much is done: `far` goes on,
/// and its line stays open. The halt's number counts these steps alone.
pub fn do_part<R: ByteIn, W: ByteOut, P: ByteOut>(
    from: &mut R,
    to: &mut W,
    limits: &Limits,
    turns: u64,
    steps: &[Step],
    far: &mut Progress,
    progress: &mut P,
) -> Result<(), Halt>
    requires form { All IsDoable steps.now }
    ensures done { MatchResult result
        (λ _. HasDoneAll (wire (W.held to.old) (R.ahead from.old))
        (wire (W.held to.new) (R.ahead from.new))
        limits.now turns steps.now)
        (λ halt. HasHalted (wire (W.held to.old) (R.ahead from.old))
        (wire (W.held to.new) (R.ahead from.new))
        limits.now turns steps.now
        halt) }
    ensures counts { CountsHalt Read (R.count from.old) (R.count from.new) result
        × CountsHalt Write (W.count to.old) (W.count to.new) result }
{
    rows();
    let mut rest = steps;
    while !rest.is_empty() {
        let (row, later) = rest.split_at(row_length(rest, limits));
        if let Err(halt) = do_row(from, to, limits, turns, row) {
            far.row_done(&row[..halt.step as usize], progress);
            let step = (steps.len() - rest.len()) as u64 + halt.step;
            return Err(Halt {
                step,
                why: halt.why,
            });
        }
        far.row_done(row, progress);
        rest = later;
    }
    Ok(())
}
