//! `play` on its files and its device.

ghost use Rattle.std.specs.Prelude.{◌≡◌, length};
ghost use Rattle.nor_base.specs.Chip.{IsPossible};
ghost use Rattle.norprog_files.specs.Files.{Did};
ghost use Rattle.norprog_named.specs.Play.{EndsPlay, EndsPlaying};
ghost use Rattle.norprog_player.specs.Expected.{expectation_of, play_of};

use crate::job::read_tables;
use nor_base::ByteOut;
use norprog_common::{FileName, setup_inputs};
use norprog_files::{Files, Trail};
use norprog_player::{
    Course, Early, Ending, Expected, Job, PlayRequest, Unplayed, ends_early, job_of, known_tables,
    play_on,
};
use std::alloc::Global;

/// Plays a script on the chip behind a device (docs/FORMATS.md, sections 9 and 14). How many steps
/// are done is written to `progress`; where that fails nothing changes.
pub fn play<F: Files, P: ByteOut>(
    alloc: Global,
    files: &F,
    trail: &mut F::Trail,
    request: PlayRequest<'_>,
    progress: &mut P,
) -> Result<Ending, Unplayed>
    ensures { Did (F.Trail.did trail.old) (F.Trail.did trail.new)
        (λ log. EndsPlay (F.unread files.now) request.entry log result) }
{
    let tables = read_tables(alloc, files, trail, request.setup.chip)?;
    let (mut content, len) = files.open(trail, request.content, FileName::Content)?;
    let (mut script, _len) = files.open(trail, request.script, FileName::Script)?;
    let inputs = setup_inputs(request.setup, tables.as_slice());
    let job = job_of(alloc, &inputs, &mut script, &mut content, len)?;
    let expected = Expected {
        part: request.setup.part,
        start: job.start,
        tables: known_tables(&inputs),
        trusted: request.trust,
    };
    play_job(
        alloc,
        files,
        trail,
        job,
        expected,
        request.device,
        request.limit,
        progress,
    )
}

/// Plays steps in memory and then, unless they end there, on the device of this name.
fn play_job<F: Files, P: ByteOut>(
    alloc: Global,
    files: &F,
    trail: &mut F::Trail,
    job: Job,
    expected: Expected<'_>,
    device: &str,
    limit: u64,
    progress: &mut P,
) -> Result<Ending, Unplayed>
    requires chip { (length job.content.items ≡ job.meaning.size)
        × IsPossible job.meaning expected.start }
    ensures { Did (F.Trail.did trail.old) (F.Trail.did trail.new)
        (λ log. EndsPlaying device.now (play_of job.steps (expectation_of expected.entry)
        job.meaning job.content.items limit) log result) }
{
    let Job {
        meaning,
        start: _,
        steps,
        content,
    } = job;
    let content = content.as_slice();
    let rehearsed = match ends_early(alloc, &meaning, expected.start, content, steps)? {
        Early::Ends(ending) => return Ok(ending),
        Early::Goes(rehearsed) => rehearsed,
    };
    let course = Course {
        meaning: &meaning,
        expected,
        content,
        steps: &rehearsed.steps,
        left: rehearsed.left.as_slice(),
        turns: limit,
    };
    let (mut from, mut to) = files.open_device(trail, alloc, device)?;
    let ended = play_on(alloc, &mut from, &mut to, &course, progress);
    files.close_device(trail, device, from, to);
    ended
}
