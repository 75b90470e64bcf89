//! `script` on its files.

ghost use Rattle.std.specs.Prelude.{◌≡◌, IfErr, IfOk, option_map};
ghost use Rattle.nor_base.specs.Device.{one_more};
ghost use Rattle.nor_job.specs.declared.fault.BuildFault.TheVariants.{Write};
ghost use Rattle.norprog_common.specs.Chip.{origin_of};
ghost use Rattle.norprog_common.specs.declared.faults.Refusal.TheVariants.{Build};
ghost use Rattle.norprog_files.specs.Files.{Did};
ghost use Rattle.norprog_named.specs.Job.{Reading};
ghost use Rattle.norprog_named.specs.Script.{EndsScript, IsLogOf, origin_in};
ghost use Rattle.norprog_named.specs.Script.{script_files, source_of};
ghost use Rattle.norprog_script.specs.Written.{RefusesLog, WasWritten};

use crate::job::read_chip;
use nor_base::ByteOut;
use norprog_common::{Chip, FileName, Refusal, Setup, setup_inputs};
use norprog_files::{Files, OutKind, Trail};
use norprog_script::{ScriptRequest, Tally, script_listing, script_log};
use std::alloc::Global;

/// Writes the script of a log, which is a listing where a chip is said, and returns how many steps
/// it has (docs/FORMATS.md, section 9).
pub fn script<F: Files>(
    alloc: Global,
    files: &F,
    trail: &mut F::Trail,
    request: ScriptRequest<'_>,
) -> Result<Tally, Refusal>
    ensures { Did (F.Trail.did trail.old) (F.Trail.did trail.new)
        (λ log. EndsScript request.entry log result) }
{
    let (tables, text) = read_log(alloc, files, trail, request)?;
    let mut out = files.create(trail, alloc, request.out, OutKind::Script)?;
    let written = write_log(alloc, request, tables.as_slice(), text.as_slice(), &mut out);
    let closed = files.close(trail, request.out.path, out);
    let tally = written?;
    match closed {
        Ok(()) => Ok(tally),
        Err(_) => Err(Refusal::WRITE),
    }
}

/// Reads the tables of the chip of a listing, where it has a file, and then the log.
fn read_log<F: Files>(
    alloc: Global,
    files: &F,
    trail: &mut F::Trail,
    request: ScriptRequest<'_>,
) -> Result<(Vec<u8>, Vec<u8>), Refusal>
    ensures { Did (F.Trail.did trail.old) (F.Trail.did trail.new) (Reading
        (script_files request.entry)
        (λ read. IsLogOf request.entry read.0.items read.1.items) result) }
{
    let tables = read_chip(alloc, files, trail, chip_in(request.chip))?;
    let text = files.read(trail, alloc, request.log, FileName::Log)?;
    Ok((tables, text))
}

/// The chip of a listing.
fn chip_in<'a>(setup: Option<Setup<'a>>) -> Option<Chip<'a>>
    ensures { option_map origin_of result ≡ origin_in setup.entry }
{
    match setup {
        Some(setup) => Some(setup.chip),
        None => None,
    }
}

/// Writes the script of a log's text.
fn write_log<W: ByteOut>(
    alloc: Global,
    request: ScriptRequest<'_>,
    tables: &[u8],
    text: &[u8],
    out: &mut W,
) -> Result<Tally, Refusal>
    ensures written { IfOk result (WasWritten (source_of request.entry tables.now) text.now
        (W.held out.old) (W.held out.new)) }
    ensures refused { IfErr result (RefusesLog (source_of request.entry tables.now) text.now
        (W.held out.old) (W.held out.new)) }
    ensures failed { IfErr result
        (λ why. why ≡ Build Write → W.count out.new ≡ one_more (W.count out.old)) }
{
    match request.chip {
        Some(setup) => script_listing(alloc, &setup_inputs(setup, tables), text, out),
        None => script_log(alloc, text, request.without_identity, out),
    }
}
