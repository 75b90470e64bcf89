//! `run` on its files.

ghost use Rattle.std.specs.Prelude.{◌≡◌, ◌<◌};
ghost use Rattle.norprog_files.specs.Files.{Did};
ghost use Rattle.norprog_named.specs.Job.{Reading};
ghost use Rattle.norprog_named.specs.Run.{EndsRun, OpensPlay, run_files};

use crate::job::read_tables;
use nor_base::Nowhere;
use norprog_common::{FileName, Refusal, setup_inputs};
use norprog_files::{Files, OutKind, Trail};
use norprog_run::{RunRequest, Verdict, play_stream};
use std::alloc::Global;

/// Plays the script of a request, and has what the chip holds then go to the output, where one is
/// named (docs/FORMATS.md, section 9).
pub(crate) fn run<F: Files>(
    alloc: Global,
    files: &F,
    trail: &mut F::Trail,
    request: RunRequest<'_>,
) -> Result<Verdict, Refusal>
    requires { 0 < request.bench.limit }
    ensures { Did (F.Trail.did trail.old) (F.Trail.did trail.new)
        (λ log. EndsRun (F.unread files.now) request.entry log result) }
{
    let (tables, mut content, len, mut script) = open_play(alloc, files, trail, &request)?;
    let inputs = setup_inputs(request.setup, tables.as_slice());
    let bench = request.bench;
    let Some(file) = request.out else {
        return play_stream(
            alloc,
            &inputs,
            bench,
            &mut script,
            &mut content,
            len,
            &mut Nowhere,
        );
    };
    let mut out = files.create(trail, alloc, file, OutKind::Content(len))?;
    let played = play_stream(
        alloc,
        &inputs,
        bench,
        &mut script,
        &mut content,
        len,
        &mut out,
    );
    let closed = files.close(trail, file.path, out);
    let verdict = played?;
    match closed {
        Ok(()) => Ok(verdict),
        Err(_) => Err(Refusal::WRITE),
    }
}

/// Opens the files that a play reads, in their order: what the tables hold, the content, how many
/// bytes that has, and the script.
fn open_play<F: Files>(
    alloc: Global,
    files: &F,
    trail: &mut F::Trail,
    request: &RunRequest<'_>,
) -> Result<(Vec<u8>, F::Input, u64, F::Input), Refusal>
    ensures did { Did (F.Trail.did trail.old) (F.Trail.did trail.new) (Reading
        (run_files request.now) (λ play. OpensPlay request.now play.0.items
        (F.Input.ahead play.1) play.2 (F.Input.ahead play.3)) result) }
{
    let tables = read_tables(alloc, files, trail, request.setup.chip)?;
    let (content, len) = files.open(trail, request.content, FileName::Content)?;
    let (script, _size) = files.open(trail, request.script, FileName::Script)?;
    Ok((tables, content, len, script))
}
