//! `build` on its files.

ghost use Rattle.std.specs.Prelude.{◌≡◌, IfErr, IfOk};
ghost use Rattle.nor_base.specs.Device.{one_more};
ghost use Rattle.nor_job.specs.Written.{passed};
ghost use Rattle.norprog_common.specs.Rules.{MeetsRules};
ghost use Rattle.norprog_files.specs.Files.{Did};
ghost use Rattle.norprog_named.specs.Build.{EndsBuild, IsBuiltBy, Unbuilt, work};

use crate::job::open_job;
use nor_base::{ByteIn, ByteOut};
use nor_job::Inputs;
use norprog::Report;
use norprog_common::{ImageRules, OutFile, Refusal, Request, inputs_of, refuse_image};
use norprog_files::{Files, OutKind, Trail};
use std::alloc::Global;

/// Builds the job of a request into a file (docs/FORMATS.md, section 9).
pub fn build<F: Files>(
    alloc: Global,
    files: &F,
    trail: &mut F::Trail,
    request: &Request<'_>,
    out: OutFile<'_>,
) -> Result<Report, Refusal>
    ensures { Did (F.Trail.did trail.old) (F.Trail.did trail.new)
        (λ log. EndsBuild (F.unread files.now) request.now out.entry log result) }
{
    let (texts, mut content, len) = open_job(alloc, files, trail, request)?;
    let mut script = files.create(trail, alloc, out, OutKind::Script)?;
    let inputs = inputs_of(request, &texts);
    let built = built(
        alloc,
        request.rules,
        &inputs,
        &mut content,
        len,
        &mut script,
    );
    let closed = files.close(trail, out.path, script);
    let report = built?;
    match closed {
        Ok(()) => Ok(report),
        Err(_) => Err(Refusal::WRITE),
    }
}

/// Builds as [`norprog::build`] does; an image that breaks a rule is refused first.
fn built<R: ByteIn, W: ByteOut>(
    alloc: Global,
    rules: ImageRules,
    inputs: &Inputs<'_>,
    content: &mut R,
    len: u64,
    out: &mut W,
) -> Result<Report, Refusal>
    ensures meets { IfOk result (λ _. MeetsRules rules inputs.now len) }
    ensures built { IfOk result (IsBuiltBy (work inputs.now len
        (passed (R.ahead content.old) (R.ahead content.new) (W.held out.old) (W.held out.new)))) }
    ensures unbuilt { IfErr result (Unbuilt rules (work inputs.now len
        (passed (R.ahead content.old) (R.ahead content.new) (W.held out.old) (W.held out.new)))
        (R.count content.new ≡ one_more (R.count content.old))
        (W.count out.new ≡ one_more (W.count out.old))) }
{
    refuse_image(alloc, rules, inputs, len)?;
    match norprog::build(alloc, inputs, content, len, out) {
        Ok(report) => Ok(report),
        Err(fault) => Err(Refusal::Build(fault)),
    }
}
