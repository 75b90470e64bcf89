//! `plan` on its files.

ghost use Rattle.std.specs.Prelude.{◌≡◌, ◌++◌, ℕ, List, Option, is_some};
ghost use Rattle.nor_base.specs.Device.{one_more};
ghost use Rattle.std.specs.Prelude.{option_map, IfErr, IfOk, IfSome, MatchResult};
ghost use Rattle.std.specs.Io.KnownBytes.{Appends};
ghost use Rattle.nor_job.specs.Written.{passed};
ghost use Rattle.norprog_common.specs.Request.{is_well_formed};
ghost use Rattle.norprog_common.specs.Rules.{MeetsRules};
ghost use Rattle.norprog_common.specs.declared.faults.FileName.TheVariants.{Map};
ghost use Rattle.norprog_common.specs.declared.given.OutFile.{OutFile};
ghost use Rattle.norprog_files.specs.Files.{Did, Event};
ghost use Rattle.norprog_named.specs.Build.{work};
ghost use Rattle.norprog_named.specs.Job.{Reading, named_by};
ghost use Rattle.norprog_common.specs.Told.{output};
ghost use Rattle.norprog_named.specs.Plan.{AsksPlan, EndsPlan, LeavesMap, LosesMap, MakesMap};
ghost use Rattle.norprog_named.specs.Plan.{SendsMap, Untold, shows_of};
ghost use Rattle.norprog_plan.specs.Outline.{IsOutline, outline};

use crate::job::open_job;
use nor_base::{ByteIn, ByteOut, Failed, put_all};
use nor_job::Inputs;
use norprog_common::{
    OutFile, PlanArgs, Refusal, Request, inputs_of, path_of, refuse_image, request_of as job_of,
};
use norprog_files::{Files, OutKind, Trail};
use norprog_plan::{Shows, Title, Told, tell};
use std::alloc::Global;

/// What `plan` is asked for.
#[derive(Drop)]
pub struct PlanRequest<'a> {
    pub job: Request<'a>,
    /// How long it takes is reported, too.
    pub times: bool,
    /// So is what the image gives each chosen region.
    pub regions: bool,
    /// The file of the picture, where one is asked for.
    pub map: Option<OutFile<'a>>,
}

/// The request that the values of a command line spell. None where one isn't of its form.
pub(crate) fn plan_of<'a>(given: PlanArgs<'a>) -> Option<PlanRequest<'a>>
    ensures forms { is_some result ≡ is_well_formed given.entry.job }
    ensures values { IfSome result (λ request. AsksPlan given.entry request) }
{
    Some(PlanRequest {
        job: job_of(given.job)?,
        times: given.times,
        regions: given.regions,
        map: given.map,
    })
}

/// The file of a picture.
struct MapFile<'a, O> {
    out: OutFile<'a>,
    file: O,
}

/// Prints a plan, and draws it where that is asked for (docs/FORMATS.md, section 9). Returns the
/// status, 0.
pub fn plan<F: Files, O: ByteOut>(
    alloc: Global,
    files: &F,
    trail: &mut F::Trail,
    request: &PlanRequest<'_>,
    out: &mut O,
) -> Result<u8, Refusal>
    ensures { Did (F.Trail.did trail.old) (F.Trail.did trail.new)
        (λ log. EndsPlan (F.unread files.now) request.now
        (output O.held O.count out.old out.new)
        log result) }
{
    let (texts, mut content, len) = open_job(alloc, files, trail, &request.job)?;
    let map = make_map(alloc, files, trail, request.map)?;
    let inputs = inputs_of(&request.job, &texts);
    let told = match print_lines(alloc, request, &inputs, &mut content, len, out) {
        Ok(told) => told,
        Err(why) => {
            leave_map(files, trail, map);
            return Err(why);
        }
    };
    match send_map(files, trail, map, &told.picture) {
        Ok(()) => {}
        Err(_) => return Err(Refusal::WRITE),
    }
    match put_all(out, &told.rest) {
        Ok(()) => Ok(0),
        Err(_) => Err(Refusal::WRITE),
    }
}

/// Makes the file of the picture, where one is named.
fn make_map<'a, F: Files>(
    alloc: Global,
    files: &F,
    trail: &mut F::Trail,
    named: Option<OutFile<'a>>,
) -> Result<Option<MapFile<'a, F::Output>>, Refusal>
    ensures did { Did (F.Trail.did trail.old) (F.Trail.did trail.new)
        (Reading (named_by Map (option_map (λ o. o.path.now) named.entry))
        (MakesMap F.Output.held named.entry) result) }
{
    match named {
        Some(out) => Ok(Some(MapFile {
            out,
            file: files.create(trail, alloc, out, OutKind::Picture)?,
        })),
        None => Ok(None),
    }
}

/// Prints the lines of a plan as [`norprog_plan::tell`] does; an image that breaks a rule is
/// refused first.
fn print_lines<R: ByteIn, O: ByteOut>(
    alloc: Global,
    request: &PlanRequest<'_>,
    inputs: &Inputs<'_>,
    content: &mut R,
    len: u64,
    out: &mut O,
) -> Result<Told, Refusal>
    ensures meets { IfOk result (λ _. MeetsRules request.now.job.rules inputs.now len) }
    ensures told { IfOk result (λ told. (lines : List ℕ)
        × IsOutline (shows_of request.now) inputs.now len (R.ahead content.old)
        (outline lines told) × Appends (O.held out.old) (O.held out.new) lines) }
    ensures count { IfOk result (λ _. O.count out.new ≡ O.count out.old) }
    ensures untold { IfErr result (Untold request.now.job.rules (work inputs.now len
        (passed (R.ahead content.old) (R.ahead content.new) (O.held out.old) (O.held out.new)))
        (R.count content.new ≡ one_more (R.count content.old))
        (O.count out.new ≡ one_more (O.count out.old))) }
{
    refuse_image(alloc, request.job.rules, inputs, len)?;
    let shows = Shows {
        times: request.times,
        regions: request.regions,
        picture: request.map.is_some(),
    };
    let title = title_of(&request.job);
    match tell(alloc, inputs, content, len, shows, &title, out) {
        Ok(told) => Ok(told),
        Err(fault) => Err(Refusal::Build(fault)),
    }
}

/// What a picture is of, as it was typed.
fn title_of<'a>(job: &'a Request<'_>) -> Title<'a> {
    let layout: &[u8] = match job.layout {
        Some(layout) => layout.as_bytes(),
        None => b"",
    };
    Title {
        image: path_of(job.image).as_bytes(),
        content: job.content.as_bytes(),
        layout,
        regions: job.regions.as_slice(),
    }
}

/// Closes the file of a picture that isn't drawn, if there is one.
fn leave_map<F: Files>(files: &F, trail: &mut F::Trail, map: Option<MapFile<'_, F::Output>>)
    ensures { (named : Option OutFile) (made : List Event)
        → MakesMap F.Output.held named map.entry made
        → Did (F.Trail.did trail.old) (F.Trail.did trail.new)
        (λ log. LeavesMap named (made ++ log)) }
{
    if let Some(MapFile { out, file }) = map {
        let _ = files.close(trail, out.path, file);
    }
}

/// Puts a picture into its file, if there is one, and closes that. `Failed` where some of it may
/// not have gone out.
fn send_map<F: Files>(
    files: &F,
    trail: &mut F::Trail,
    map: Option<MapFile<'_, F::Output>>,
    picture: &[u8],
) -> Result<(), Failed>
    ensures { (named : Option OutFile) (made : List Event)
        → MakesMap F.Output.held named map.entry made
        → Did (F.Trail.did trail.old) (F.Trail.did trail.new) (λ log. MatchResult result
        (λ _. SendsMap picture.now named (made ++ log)) (λ _. LosesMap named (made ++ log))) }
{
    let Some(MapFile { out, mut file }) = map else {
        return Ok(());
    };
    let put = put_all(&mut file, picture);
    let closed = files.close(trail, out.path, file);
    put?;
    closed
}
