//! What a chip held before work on it was begun, and how that is saved.

ghost use Rattle.std.specs.Prelude.{◌≡◌, ◌≢◌, ◌⊎◌, ◌+◌, ◌≤◌, ◌<◌, ◌^◌, length, option_map, true};
ghost use Rattle.std.specs.Prelude.{IfOk, IfErr};
ghost use Rattle.nor_hex.specs.Laws.{GivesJust};
ghost use Rattle.nor_job.specs.declared.fault.BuildFault.TheVariants.{Memory};
ghost use Rattle.nor_hex.specs.declared.fault.HexFault.TheVariants as hex;
ghost use Rattle.norprog_common.specs.declared.faults.FileName.TheVariants.{Resume};
ghost use Rattle.norprog_common.specs.declared.faults.Refusal.TheVariants.{Build, File};
ghost use Rattle.norprog_flash.specs.Begun.{copy_of};
ghost use Rattle.norprog_flash.specs.Dump.{IsDumpOf, RefusesDump, RefusesRun, is_of_part, laid};

use crate::job::{Job, goes_near};
use nor_hex::{HexFault, Image, hex_of};
use norprog_common::{FileName, Refusal};
use norprog_read::{Reading, Span};
use std::alloc::{AllocError, Global};

/// What a file of Intel HEX is refused for.
const UNFIT: Refusal = Refusal::File(FileName::Resume);

/// What a chip held, or a part of it.
#[derive(Drop)]
pub struct Dump {
    /// The address of the first byte.
    pub at: u32,
    pub bytes: Vec<u8>,
}

/// The dump that a file has: all of a chip, as raw bytes, or a part, as Intel HEX.
///
/// `File(Resume)` where such a text has a fault, or its bytes aren't at gapless addresses below
/// FFFFFFFFh; `Memory`.
pub fn dump_in(alloc: Global, bytes: Vec<u8>, part: bool) -> Result<Dump, Refusal>
    ensures dump { IfOk result (IsDumpOf bytes.items part) }
    ensures refused { IfErr result (RefusesDump bytes.items part) }
{
    if !part {
        return Ok(Dump { at: 0, bytes });
    }
    match nor_hex::read(alloc, bytes.as_slice()) {
        Ok(image) => only_run(alloc, &image),
        Err(fault) => Err(unread(fault)),
    }
}

/// What a text is refused for that can't be read.
fn unread(fault: HexFault) -> Refusal
    ensures { (result ≡ Build Memory) ⊎ ((fault ≢ hex.Memory) × (result ≡ File Resume)) }
{
    match fault {
        HexFault::Memory => Refusal::MEMORY,
        _ => UNFIT,
    }
}

/// The bytes of an image that are all at gapless addresses.
fn only_run(alloc: Global, image: &Image) -> Result<Dump, Refusal>
    ensures just { IfOk result (λ dump. GivesJust dump.at dump.bytes.items image.now) }
    ensures refused { IfErr result (RefusesRun image.now) }
{
    let Some((at, run)) = image.run_from(0) else {
        return Err(UNFIT);
    };
    let Ok(end) = u32::try_from(u64::from(at) + run.len() as u64) else {
        return Err(UNFIT);
    };
    if image.run_from(end).is_some() {
        return Err(UNFIT);
    }
    let mut bytes = Vec::new(alloc);
    if bytes.extend_from_slice(run).is_err() {
        return Err(Refusal::MEMORY);
    }
    Ok(Dump { at, bytes })
}

/// Whether a dump has just the part of a content that was read.
pub(crate) fn is_of_part(dump: &Dump, part: Span, content: &[u8]) -> bool
    ensures { result ≡ is_of_part dump.now part content.now }
{
    let at = dump.at as usize;
    at == part.low && at + dump.bytes.len() == part.high && part.high <= content.len()
}

/// A content with the bytes of a dump in their place.
pub(crate) fn laid(alloc: Global, dump: &Dump, content: &[u8]) -> Result<Vec<u8>, AllocError>
    requires within { dump.now.at + length dump.now.bytes.items ≤ length content.now }
    ensures { IfOk result (λ all. all.items ≡ laid dump.now content.now) }
{
    let at = dump.at as usize;
    let mut all = Vec::new(alloc);
    all.extend_from_slice(&content[..at])?;
    all.extend_from_slice(dump.bytes.as_slice())?;
    all.extend_from_slice(&content[at + dump.bytes.len()..])?;
    Ok(all)
}

/// What is saved of a chip in place of its content: of one that was read in part, that part as
/// Intel HEX.
pub(crate) fn copy_of(
    alloc: Global,
    job: &Job<'_>,
    reading: &Reading,
) -> Result<Option<Vec<u8>>, Refusal>
    requires part { (reading.now.span.low ≤ reading.now.span.high)
        × (reading.now.span.high ≤ length reading.now.content.items) }
    requires few { length reading.now.content.items < 2 ^ 32 }
    ensures copy { IfOk result
        (λ copy. option_map (λ text. text.items) copy ≡ copy_of job.now reading.now) }
    ensures memory { IfErr result (λ why. why ≡ Build Memory) }
{
    if !goes_near(job) {
        return Ok(None);
    }
    let part = reading.span;
    let bytes = &reading.content.as_slice()[part.low..part.high];
    match hex_of(alloc, part.low as u32, bytes) {
        Ok(text) => Ok(Some(text)),
        Err(_) => Err(Refusal::MEMORY),
    }
}
