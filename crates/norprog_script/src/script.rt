//! From the bytes of a script to those of its waveform.

ghost use Rattle.std.specs.Prelude.{◌≡◌, IfOk, IfErr, length, min};
ghost use Rattle.nor_base.specs.Device.{Writes, Counts};
ghost use Rattle.nor_base.specs.Script.{IsScript};
ghost use Rattle.nor_waves.specs.Waves.{waves};
ghost use Rattle.norprog_script.specs.Drawn.{part, IsThere, RefusesSteps};

use nor_base::{ByteOut, Failed, Step};
use nor_waves::write_waves;
use norprog_common::Refusal;
use std::alloc::Global;

/// The steps that a script's text spells, of which step `from` is one, or is 0. Steps count from 0.
///
/// The first fault is reported: `Script` where the text is none; `Steps` where the script has no
/// step `from`, with the number of those that it has. `Memory` comes where a growth is refused.
pub fn steps_of(alloc: Global, script: &[u8], from: u64) -> Result<Vec<Step>, Refusal>
    ensures steps { IfOk result (λ steps. IsScript script.now steps.items) }
    ensures there { IfOk result (λ steps. IsThere from steps.items) }
    ensures refused { IfErr result (RefusesSteps script.now from) }
{
    let steps = nor_script::read(alloc, script)?;
    let number = steps.len() as u64;
    if from > 0 && from >= number {
        return Err(Refusal::Steps(number));
    }
    Ok(steps)
}

/// Writes the waveform of `count` steps from step `from` on, or of all from there on where no
/// number is given; of as many as there are. It takes no memory.
///
/// At `Failed` a proper prefix was taken.
pub fn draw_steps<W: ByteOut>(
    steps: &[Step],
    from: u64,
    count: Option<u64>,
    out: &mut W,
) -> Result<(), Failed>
    ensures bytes { Writes (W.held out.old) (W.held out.new) result
        (waves (part from count steps.now)) }
    ensures count { Counts (W.count out.old) (W.count out.new) result }
{
    write_waves(part(steps, from, count), out)
}

/// So many steps from one on, as far as there are some; all from there on where no number is given.
fn part(steps: &[Step], from: u64, count: Option<u64>) -> &[Step]
    ensures { result.now ≡ part from count steps.now }
{
    let rest = &steps[within(steps, from)..];
    match count {
        Some(count) => &rest[..within(rest, count)],
        None => rest,
    }
}

/// A number of steps, or as many as there are.
fn within(steps: &[Step], number: u64) -> usize
    ensures { result ≡ min (length steps.now) number }
{
    (steps.len() as u64).min(number) as usize
}
