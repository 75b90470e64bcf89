//! `draw` on its files.

ghost use Rattle.norprog_files.specs.Files.{Did};
ghost use Rattle.norprog_named.specs.Draw.{EndsDraw};

use norprog_common::{FileName, Refusal};
use norprog_files::{Files, OutKind, Trail};
use norprog_script::{DrawRequest, draw_steps, steps_of};
use std::alloc::Global;

/// Draws the steps of a script that are asked for (docs/FORMATS.md, section 9). Returns the status,
/// 0.
pub fn draw<F: Files>(
    alloc: Global,
    files: &F,
    trail: &mut F::Trail,
    request: DrawRequest<'_>,
) -> Result<u8, Refusal>
    ensures { Did (F.Trail.did trail.old) (F.Trail.did trail.new)
        (λ log. EndsDraw request.entry log result) }
{
    let script = files.read(trail, alloc, request.script, FileName::Script)?;
    let steps = steps_of(alloc, script.as_slice(), request.from)?;
    let mut out = files.create(trail, alloc, request.out, OutKind::Waveform)?;
    let drawn = draw_steps(steps.as_slice(), request.from, request.count, &mut out);
    let closed = files.close(trail, request.out.path, out);
    match drawn {
        Ok(()) => match closed {
            Ok(()) => Ok(0),
            Err(_) => Err(Refusal::WRITE),
        },
        Err(_) => Err(Refusal::WRITE),
    }
}
