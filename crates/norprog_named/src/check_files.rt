//! `check` on its files.

ghost use Rattle.std.specs.Prelude.{◌≡◌};
ghost use Rattle.norprog_files.specs.Files.{Did};
ghost use Rattle.norprog_named.specs.Check.{EndsCheck};
ghost use Rattle.norprog_named.specs.Check.{refusal_of as told_of, verdict_status as status_told};

use crate::job::open_job;
use norprog_check::{CheckStop, Finding, StreamStop, Verdict, check_stream};
use norprog_common::{FileName, Refusal, Request, inputs_of, refuse_image};
use norprog_files::{Files, Trail};
use std::alloc::Global;

/// Checks whether the script of the name `path` does the job of a request (docs/FORMATS.md,
/// section 9).
pub fn check<F: Files>(
    alloc: Global,
    files: &F,
    trail: &mut F::Trail,
    request: &Request<'_>,
    path: &str,
) -> Result<Finding, Refusal>
    ensures { Did (F.Trail.did trail.old) (F.Trail.did trail.new)
        (λ log. EndsCheck (F.unread files.now) request.now path.now log result) }
{
    let (texts, mut content, len) = open_job(alloc, files, trail, request)?;
    let (mut script, _len) = files.open(trail, path, FileName::Script)?;
    let inputs = inputs_of(request, &texts);
    refuse_image(alloc, request.rules, &inputs, len)?;
    match check_stream(alloc, &inputs, &mut script, &mut content, len) {
        Ok(found) => Ok(found),
        Err(stop) => Err(refusal_of(stop)),
    }
}

/// The refusal that tells why nothing is found.
fn refusal_of(stop: StreamStop) -> Refusal
    ensures { result ≡ told_of stop }
{
    match stop {
        StreamStop::Check(CheckStop::Build(fault)) => Refusal::Build(fault),
        StreamStop::Check(CheckStop::Script(fault)) => Refusal::from(fault),
        StreamStop::Device(_) => Refusal::File(FileName::Script),
    }
}

/// 0 where a script does its job, else 1.
pub(crate) fn verdict_status(verdict: Verdict) -> u8
    ensures { result ≡ status_told verdict }
{
    match verdict {
        Verdict::Yes => 0,
        Verdict::No { step: _, why: _ } => 1,
    }
}
