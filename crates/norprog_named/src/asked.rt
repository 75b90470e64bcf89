//! What the values of a command line ask for.

ghost use Rattle.std.specs.Prelude.{◌≡◌, ◌≤◌, IfOk};
ghost use Rattle.norprog_files.specs.Files.{Did};
ghost use Rattle.norprog_common.specs.Told.{output};
ghost use Rattle.norprog_named.specs.Asked.{EndsBuildAsked, EndsCheckAsked};
ghost use Rattle.norprog_named.specs.Asked.{EndsDrawAsked, EndsHexAsked, EndsListAsked};
ghost use Rattle.norprog_named.specs.Asked.{EndsPlanAsked, EndsRunAsked, EndsScriptAsked};
ghost use Rattle.norprog_named.specs.Asked.{EndsSfdpAsked};

use crate::build_files::build;
use crate::check_files::{check, verdict_status};
use crate::draw_files::draw;
use crate::hex_files::hex;
use crate::hex_request::request_of;
use crate::list_files::{list, list_of};
use crate::plan_files::{plan, plan_of};
use crate::run_files::run;
use crate::script_files::script;
use crate::sfdp_files::meaning_of;
use nor_base::{ByteOut, Failed};
use norprog::{sfdp_text, write_report};
use norprog_check::write_finding;
use norprog_common::{
    BuildArgs, CheckArgs, ChipArgs, DrawArgs, HexArgs, ListArgs, PlanArgs, Refusal, RunArgs,
    ScriptArgs, SetupArgs, request_of as job_of, setup_of,
};
use norprog_files::{Files, Trail};
use norprog_run::{request_of as play_of, status_of, write_verdict};
use norprog_script::{drawing_of, request_of as log_of, write_tally};
use std::alloc::Global;

/// Does what the values of a command line of `hex` ask for. Returns the status, 0.
pub fn hex_asked<F: Files>(
    alloc: Global,
    files: &F,
    trail: &mut F::Trail,
    given: HexArgs<'_>,
) -> Result<u8, Refusal>
    ensures status { IfOk result (λ status. status ≡ 0) }
    ensures ends { Did (F.Trail.did trail.old) (F.Trail.did trail.new)
        (λ log. EndsHexAsked (F.unread files.now) given.entry log result) }
{
    match request_of(given) {
        Some(request) => hex(alloc, files, trail, request),
        None => Err(Refusal::Usage),
    }
}

/// Builds what the values of a command line of `build` ask for, and prints the report. Returns the
/// status, 0.
pub fn build_asked<F: Files, O: ByteOut>(
    alloc: Global,
    files: &F,
    trail: &mut F::Trail,
    given: BuildArgs<'_>,
    out: &mut O,
) -> Result<u8, Refusal>
    ensures status { IfOk result (λ status. status ≡ 0) }
    ensures ends { Did (F.Trail.did trail.old) (F.Trail.did trail.new)
        (λ log. EndsBuildAsked (F.unread files.now) given.entry
        (output O.held O.count out.old out.new) log result) }
{
    let Some(request) = job_of(given.job) else {
        return Err(Refusal::Usage);
    };
    let Some(out_file) = given.out else {
        return Err(Refusal::Usage);
    };
    let report = build(alloc, files, trail, &request, out_file)?;
    match write_report(&report, out) {
        Ok(()) => Ok(0),
        Err(_) => Err(Refusal::WRITE),
    }
}

/// Checks what the values of a command line of `check` ask for, and prints what is found. Returns
/// the status: 0 the script does the job, 1 it doesn't.
pub fn check_asked<F: Files, O: ByteOut>(
    alloc: Global,
    files: &F,
    trail: &mut F::Trail,
    given: CheckArgs<'_>,
    out: &mut O,
) -> Result<u8, Refusal>
    ensures status { IfOk result (λ status. status ≤ 1) }
    ensures ends { Did (F.Trail.did trail.old) (F.Trail.did trail.new)
        (λ log. EndsCheckAsked (F.unread files.now) given.entry
        (output O.held O.count out.old out.new) log result) }
{
    let Some(request) = job_of(given.job) else {
        return Err(Refusal::Usage);
    };
    let Some(path) = given.script else {
        return Err(Refusal::Usage);
    };
    let found = check(alloc, files, trail, &request, path)?;
    match write_finding(&found, given.witness, out) {
        Ok(()) => Ok(verdict_status(found.verdict)),
        Err(_) => Err(Refusal::WRITE),
    }
}

/// Does what the values of a command line of `draw` ask for. Returns the status, 0.
pub fn draw_asked<F: Files>(
    alloc: Global,
    files: &F,
    trail: &mut F::Trail,
    given: DrawArgs<'_>,
) -> Result<u8, Refusal>
    ensures status { IfOk result (λ status. status ≡ 0) }
    ensures ends { Did (F.Trail.did trail.old) (F.Trail.did trail.new)
        (λ log. EndsDrawAsked given.entry log result) }
{
    match drawing_of(given) {
        Some(request) => draw(alloc, files, trail, request),
        None => Err(Refusal::Usage),
    }
}

/// Does what the values of a command line of `script` ask for, and prints the number of steps.
/// Returns the status, 0.
pub fn script_asked<F: Files, O: ByteOut>(
    alloc: Global,
    files: &F,
    trail: &mut F::Trail,
    given: ScriptArgs<'_>,
    out: &mut O,
) -> Result<u8, Refusal>
    ensures status { IfOk result (λ status. status ≡ 0) }
    ensures ends { Did (F.Trail.did trail.old) (F.Trail.did trail.new)
        (λ log. EndsScriptAsked given.entry (output O.held O.count out.old out.new) log
        result) }
{
    let Some(request) = log_of(given) else {
        return Err(Refusal::Usage);
    };
    let tally = script(alloc, files, trail, request)?;
    match write_tally(tally, out) {
        Ok(()) => Ok(0),
        Err(_) => Err(Refusal::WRITE),
    }
}

/// Prints the meaning of the chip that the values of a command line of `sfdp` ask for. Returns the
/// status, 0.
pub fn sfdp_asked<F: Files, O: ByteOut>(
    alloc: Global,
    files: &F,
    trail: &mut F::Trail,
    given: ChipArgs<'_>,
    out: &mut O,
) -> Result<u8, Refusal>
    ensures status { IfOk result (λ status. status ≡ 0) }
    ensures ends { Did (F.Trail.did trail.old) (F.Trail.did trail.new)
        (λ log. EndsSfdpAsked given.entry (output O.held O.count out.old out.new) log
        result) }
{
    let alone = SetupArgs {
        chip: given,
        status: None,
        mode4: false,
        quad: false,
        erased_only: false,
    };
    let Some(setup) = setup_of(alone) else {
        return Err(Refusal::Usage);
    };
    let meaning = meaning_of(alloc, files, trail, setup)?;
    match sfdp_text(&meaning, out) {
        Ok(()) => Ok(0),
        Err(Failed) => Err(Refusal::WRITE),
    }
}

/// Lists what the values of a command line of `list` ask for. Returns the status, 0.
pub fn list_asked<F: Files, O: ByteOut>(
    alloc: Global,
    files: &F,
    trail: &mut F::Trail,
    given: ListArgs<'_>,
    out: &mut O,
) -> Result<u8, Refusal>
    ensures status { IfOk result (λ status. status ≡ 0) }
    ensures ends { Did (F.Trail.did trail.old) (F.Trail.did trail.new)
        (λ log. EndsListAsked (F.unread files.now) given.entry
        (output O.held O.count out.old out.new) log result) }
{
    match list_of(given) {
        Some(request) => list(alloc, files, trail, request, out),
        None => Err(Refusal::Usage),
    }
}

/// Plays what the values of a command line of `run` ask for, and prints the verdict's line. Returns
/// its status: 0 played, 1 gone wrong.
pub fn run_asked<F: Files, O: ByteOut>(
    alloc: Global,
    files: &F,
    trail: &mut F::Trail,
    given: RunArgs<'_>,
    out: &mut O,
) -> Result<u8, Refusal>
    ensures status { IfOk result (λ status. status ≤ 1) }
    ensures ends { Did (F.Trail.did trail.old) (F.Trail.did trail.new)
        (λ log. EndsRunAsked (F.unread files.now) given.entry
        (output O.held O.count out.old out.new) log result) }
{
    let request = play_of(alloc, given)?;
    let verdict = run(alloc, files, trail, request)?;
    match write_verdict(&verdict, out) {
        Ok(()) => Ok(status_of(&verdict)),
        Err(_) => Err(Refusal::WRITE),
    }
}

/// Prints the plan that the values of a command line of `plan` ask for. Returns the status, 0.
pub fn plan_asked<F: Files, O: ByteOut>(
    alloc: Global,
    files: &F,
    trail: &mut F::Trail,
    given: PlanArgs<'_>,
    out: &mut O,
) -> Result<u8, Refusal>
    ensures status { IfOk result (λ status. status ≡ 0) }
    ensures ends { Did (F.Trail.did trail.old) (F.Trail.did trail.new)
        (λ log. EndsPlanAsked (F.unread files.now) given.entry
        (output O.held O.count out.old out.new) log result) }
{
    match plan_of(given) {
        Some(request) => plan(alloc, files, trail, &request, out),
        None => Err(Refusal::Usage),
    }
}
