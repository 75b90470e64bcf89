//! `flash` on its files and its device.

ghost use Rattle.std.specs.Prelude.{◌≡◌, ◌&&◌, not, true, IfErr, IfOk, option_map, unwrap_or};
ghost use Rattle.norprog_common.specs.Image.{image_in};
ghost use Rattle.norprog_device.specs.Blame.{is_cut};
ghost use Rattle.nor_base.specs.Wire.{wire};
ghost use Rattle.norprog_files.specs.Files.{Did};
ghost use Rattle.norprog_flash.specs.Blame.{fault_in as told_in};
ghost use Rattle.norprog_named.specs.Flash.{EndsFlash, EndsGreeted, EndsHeld, EndsJob};
ghost use Rattle.norprog_named.specs.Flash.{EndsReading, IsJobOf, ReadsFlash, StillWorks};
ghost use Rattle.norprog_named.specs.Flash.{HasDump, IsAskedData, ReadsAsked, RefusesAsked};
ghost use Rattle.norprog_named.specs.Flash.{RefusesOld};
ghost use Rattle.norprog_named.specs.Flash.{asked_files, asked_in, file_for, flash_files};
ghost use Rattle.norprog_flash.specs.Begun.{printed};
ghost use Rattle.norprog_named.specs.Flash.{reading_of};
ghost use Rattle.norprog_named.specs.Job.{Reading};

use crate::job::{bytes_in, read_chip, read_image, read_named, whole_image};
use crate::saved::save_if;
use nor_base::{ByteIn, ByteOut};
use nor_hex::Image;
use nor_serprog::{Limits, greet};
use norprog_common::{Aim, FileName, ImageData, ImageFile, Refusal, image_data};
use norprog_device::{DeviceFault, is_cut, let_go};
use norprog_files::{Files, Trail};
use norprog_flash::{
    Dump, Ending, FlashRequest, Held, Job, Unflashed, dump_in, fault_in, go_on, hold, look_at,
};
use norprog_read::{Ask, ReadRequest, ask_of};
use std::alloc::Global;

/// The bytes of the files of a request, of the image's files those of the first.
#[derive(Drop)]
struct FlashFiles {
    hex: Vec<u8>,
    layout: Option<Vec<u8>>,
    /// The tables; nothing where no file of them is named.
    sfdp: Vec<u8>,
    /// The content before the first try, where work is resumed; HEX of a part of it where only
    /// that is read.
    old: Option<Vec<u8>>,
}

/// What a job is made of.
#[derive(Drop)]
pub(crate) struct FlashTexts {
    /// The text of the image's one file of Intel HEX.
    pub(crate) hex: Vec<u8>,
    /// In place of that the image of a raw file, or of several files.
    pub(crate) image: Option<Image>,
    pub(crate) layout: Option<Vec<u8>>,
    pub(crate) sfdp: Vec<u8>,
    pub(crate) old: Option<Dump>,
}

/// Programs the chip behind a device (docs/FORMATS.md, sections 9 and 14): reads it, saves what it
/// holds in a new file where the work is wanted, plans, and does the work, or compares. The plan
/// goes to `out`, and how far the work is to `progress`; where that fails nothing changes.
pub fn flash<F: Files, O: ByteOut, P: ByteOut>(
    alloc: Global,
    files: &F,
    trail: &mut F::Trail,
    request: &FlashRequest<'_>,
    out: &mut O,
    progress: &mut P,
) -> Result<Ending, Unflashed>
    ensures ends { Did (F.Trail.did trail.old) (F.Trail.did trail.new) (λ log. EndsFlash
        request.now (printed (O.held out.old) (O.held out.new)) log result) }
    ensures works { StillWorks result (O.count out.old) (O.count out.new) }
{
    let texts = read_texts(alloc, files, trail, request)?;
    let job = job_for(request, &texts);
    flash_job(
        alloc,
        files,
        trail,
        request.read.device,
        request.before,
        &job,
        out,
        progress,
    )
}

/// Reads the files of a request whole, in the order image, layout, tables, older content, further
/// files of the image.
fn read_texts<F: Files>(
    alloc: Global,
    files: &F,
    trail: &mut F::Trail,
    request: &FlashRequest<'_>,
) -> Result<FlashTexts, Refusal>
    ensures { Did (F.Trail.did trail.old) (F.Trail.did trail.new)
        (EndsReading request.now result) }
{
    let read = read_files(alloc, files, trail, request)?;
    let FlashFiles {
        hex: bytes,
        layout,
        sfdp,
        old,
    } = read;
    let old = dump_of(alloc, old, request.near)?;
    let lay = bytes_in(&layout);
    let first = asked_data(alloc, request, lay, bytes)?;
    let whole = whole_image(
        alloc,
        files,
        trail,
        request.images,
        request.base,
        lay,
        first,
    )?;
    let (hex, image) = whole.into_parts(alloc);
    Ok(FlashTexts {
        hex,
        image,
        layout,
        sfdp,
        old,
    })
}

/// The dump that an older content's file has, of all of the chip or of a part, where there is one.
fn dump_of(alloc: Global, bytes: Option<Vec<u8>>, part: bool) -> Result<Option<Dump>, Refusal>
    ensures dump { IfOk result (HasDump part (option_map (λ file. file.items) bytes)) }
    ensures refused { IfErr result (RefusesOld part (option_map (λ file. file.items) bytes)) }
{
    match bytes {
        Some(bytes) => Ok(Some(dump_in(alloc, bytes, part)?)),
        None => Ok(None),
    }
}

/// What the image's file gives that has these bytes.
fn asked_data(
    alloc: Global,
    request: &FlashRequest<'_>,
    layout: Option<&[u8]>,
    bytes: Vec<u8>,
) -> Result<ImageData, Refusal>
    ensures gives { IfOk result (IsAskedData request.now.base
        (option_map (λ t. t.now) layout.entry) bytes.items (asked_in request.now)) }
    ensures refused { IfErr result (RefusesAsked request.now.base
        (option_map (λ t. t.now) layout.entry) bytes.items (asked_in request.now)) }
{
    match request.image {
        Some(image) => image_data(alloc, image, request.base, layout, bytes),
        None => Ok(ImageData::Text(bytes)),
    }
}

/// Reads the file of an image whole, where it has one.
fn read_asked<F: Files>(
    alloc: Global,
    files: &F,
    trail: &mut F::Trail,
    image: Option<ImageFile<'_>>,
) -> Result<Vec<u8>, Refusal>
    ensures { Did (F.Trail.did trail.old) (F.Trail.did trail.new)
        (Reading (asked_files (option_map image_in image.entry))
        (λ bytes. ReadsAsked (option_map image_in image.entry) bytes.items) result) }
{
    match image {
        Some(image) => read_image(alloc, files, trail, image),
        None => Ok(Vec::new(alloc)),
    }
}

/// Reads these files whole, except the further ones of the image.
fn read_files<F: Files>(
    alloc: Global,
    files: &F,
    trail: &mut F::Trail,
    request: &FlashRequest<'_>,
) -> Result<FlashFiles, Refusal>
    ensures { Did (F.Trail.did trail.old) (F.Trail.did trail.new)
        (Reading (flash_files request.now) (ReadsFlash request.now) result) }
{
    let hex = read_asked(alloc, files, trail, request.image)?;
    let layout = read_named(alloc, files, trail, request.layout, FileName::Layout)?;
    let sfdp = read_chip(alloc, files, trail, request.read.chip)?;
    let old = read_named(alloc, files, trail, request.resume, FileName::Resume)?;
    Ok(FlashFiles {
        hex,
        layout,
        sfdp,
        old,
    })
}

/// The job of a request, whose files hold these.
fn job_for<'a>(request: &'a FlashRequest<'_>, texts: &'a FlashTexts) -> Job<'a>
    ensures { IsJobOf request.now texts.now result }
{
    let asked = ask_of(reading_of(request), texts.sfdp.as_slice());
    Job {
        ask: Ask {
            erased_only: request.erased_only,
            ..asked
        },
        hex: texts.hex.as_slice(),
        image: texts.image.as_ref(),
        blank: request.image.is_none(),
        layout: bytes_in(&texts.layout),
        regions: request.regions,
        base: request.base,
        old: texts.old.as_ref(),
        near: request.near,
        rules: request.rules,
        aim: request.aim,
        texts: request.texts,
    }
}

/// How the chip is read: its content too, which is saved.
fn reading_of<'a>(request: &FlashRequest<'a>) -> ReadRequest<'a>
    ensures { result ≡ reading_of request.now }
{
    ReadRequest {
        out: Some(request.before),
        ..request.read
    }
}

/// Does a job on the chip behind the device of this name, which is opened only where the job has no
/// fault that shows before. What the chip holds is saved in the file of the name `before`, unless
/// the work isn't to be done.
fn flash_job<F: Files, O: ByteOut, P: ByteOut>(
    alloc: Global,
    files: &F,
    trail: &mut F::Trail,
    device: &str,
    before: &str,
    job: &Job<'_>,
    out: &mut O,
    progress: &mut P,
) -> Result<Ending, Unflashed>
    requires whole { job.now.ask.content ≡ true }
    ensures ends { Did (F.Trail.did trail.old) (F.Trail.did trail.new) (λ log. EndsJob device.now
        before.now job.now (printed (O.held out.old) (O.held out.new)) log result) }
    ensures works { StillWorks result (O.count out.old) (O.count out.new) }
{
    look_at(alloc, job)?;
    let (mut from, mut to) = files.open_device(trail, alloc, device)?;
    let ended = flash_greeted(
        alloc, files, trail, &mut from, &mut to, before, job, out, progress,
    );
    files.close_device(trail, device, from, to);
    ended
}

/// Begins with a device, does a job on its chip, and at last lets the chip's pins go; after a
/// failed write nothing more is sent.
fn flash_greeted<F: Files, O: ByteOut, P: ByteOut>(
    alloc: Global,
    files: &F,
    trail: &mut F::Trail,
    from: &mut F::FromDevice,
    to: &mut F::ToDevice,
    before: &str,
    job: &Job<'_>,
    out: &mut O,
    progress: &mut P,
) -> Result<Ending, Unflashed>
    requires whole { job.now.ask.content ≡ true }
    ensures ends { Did (F.Trail.did trail.old) (F.Trail.did trail.new) (λ log. EndsGreeted
        before.now job.now (wire (F.ToDevice.held to.old) (F.FromDevice.ahead from.old))
        (wire (F.ToDevice.held to.new) (F.FromDevice.ahead from.new))
        (printed (O.held out.old) (O.held out.new)) log result) }
    ensures works { StillWorks result (O.count out.old) (O.count out.new) }
{
    let limits = match greet(from, to) {
        Ok(limits) => limits,
        Err(why) => return Err(Unflashed::Device(DeviceFault::Greet(why))),
    };
    let ended = flash_held(
        alloc, files, trail, from, to, &limits, before, job, out, progress,
    );
    let_go(from, to, frees_pins(&limits, &ended));
    ended
}

/// Whether the pins are let go after a job that ended so: the device drives them, and no request
/// was cut. A device would take what follows as the rest of such a request.
fn frees_pins(limits: &Limits, ended: &Result<Ending, Unflashed>) -> bool
    ensures { result ≡ (limits.now.pins && not (is_cut (told_in ended.now))) }
{
    limits.pins && !is_cut(fault_in(ended))
}

/// Where what the chip holds is saved: nowhere where the work isn't to be done.
fn file_for<'a>(job: &Job<'_>, before: &'a str) -> Option<&'a str>
    ensures { option_map (λ t. t.now) result ≡ file_for job.now before.entry.now }
{
    match job.aim {
        Aim::Work => Some(before),
        Aim::Plan | Aim::Compare => None,
    }
}

/// What is saved of a chip that was read: the part that was, or all that it holds.
fn saved<'a>(held: &'a Held) -> &'a [u8]
    ensures { result.now ≡ unwrap_or (option_map (λ text. text.items) held.now.copy)
        held.now.reading.content.items }
{
    match &held.copy {
        Some(text) => text.as_slice(),
        None => held.reading.content.as_slice(),
    }
}

/// Reads the chip of a device, saves what it holds in a new file, and then has the work done.
fn flash_held<F: Files, O: ByteOut, P: ByteOut>(
    alloc: Global,
    files: &F,
    trail: &mut F::Trail,
    from: &mut F::FromDevice,
    to: &mut F::ToDevice,
    limits: &Limits,
    before: &str,
    job: &Job<'_>,
    out: &mut O,
    progress: &mut P,
) -> Result<Ending, Unflashed>
    requires whole { job.now.ask.content ≡ true }
    ensures ends { Did (F.Trail.did trail.old) (F.Trail.did trail.new) (λ log. EndsHeld limits.now
        before.now job.now (wire (F.ToDevice.held to.old) (F.FromDevice.ahead from.old))
        (wire (F.ToDevice.held to.new) (F.FromDevice.ahead from.new))
        (printed (O.held out.old) (O.held out.new)) log result) }
    ensures works { StillWorks result (O.count out.old) (O.count out.new) }
{
    let held = hold(alloc, from, to, limits, job, progress)?;
    let content = saved(&held);
    let path = file_for(job, before);
    save_if(alloc, files, trail, path, FileName::Before, content)?;
    match go_on(alloc, from, to, limits, job, &held, out, progress) {
        Ok(ending) => Ok(ending),
        Err(refusal) => Err(Unflashed::Refused(refusal)),
    }
}
