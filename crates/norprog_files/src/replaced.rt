//! What an output may be written over.

ghost use Rattle.std.specs.Prelude.{◌≡◌, IfOk, IfErr, IfSome, take};
ghost use Rattle.norprog_files.specs.Files.{Denies, Did};
ghost use Rattle.std.specs.Char.{is_ascii_hexdigit};
ghost use Rattle.std.specs.List.{list_all};
ghost use Rattle.norprog_files.specs.Replaced.{Spares, at_risk, begins_record, is_alike};
ghost use Rattle.norprog_files.specs.Replaced.{name_of};

use crate::disk::{Disk, How, Kind, Stat};
use crate::guards::{open_as, refusal_of};
use norprog_common::{FileName, OutFile, Refusal};
use std::alloc::Global;
use std::io::{self, Read};

/// What a file is to hold.
#[derive(Clone, Copy)]
pub enum OutKind {
    Script,
    /// Intel HEX.
    Hex,
    /// A Value Change Dump.
    Waveform,
    /// SVG.
    Picture,
    /// What a chip of so many bytes holds.
    Content(u64),
}

impl OutKind {
    /// The option that names its file.
    pub fn name(self) -> FileName
        ensures { result ≡ name_of self }
    {
        match self {
            OutKind::Picture => FileName::Map,
            _ => FileName::Out,
        }
    }
}

/// Each kind but a content shows by so many bytes.
const FRONT: u64 = 12;

/// Refuses what is there and would be lost: a regular file that holds bytes, and isn't of this
/// kind, unless it may be written over.
pub(crate) fn only_alike<D: Disk>(
    disk: &D,
    calls: &mut D::Calls,
    alloc: Global,
    out: OutFile<'_>,
    found: io::Result<Stat>,
    kind: OutKind,
) -> Result<(), Refusal>
    ensures { Did (D.Calls.did calls.old) (D.Calls.did calls.new)
        (λ log. Spares D.File.remaining out.entry kind found log result) }
{
    let Some(len) = at_risk(out.force, found) else {
        return Ok(());
    };
    let file = open_as(disk, calls, out.path, How::Read, kind.name())?;
    let front = read_front(alloc, file, kind.name())?;
    if is_alike(kind, len, front.as_slice()) {
        Ok(())
    } else {
        Err(Refusal::File(kind.name()))
    }
}

/// How many bytes would be lost of what is found, unless that may be written over: those of a
/// regular file.
fn at_risk(force: bool, found: io::Result<Stat>) -> Option<u64>
    ensures { result ≡ at_risk force found }
{
    match found {
        Ok(stat) if matches!(stat.kind, Kind::Regular) && stat.len > 0 && !force => Some(stat.len),
        _ => None,
    }
}

/// Whether a file of so many bytes that begins so is of this kind.
fn is_alike(kind: OutKind, len: u64, front: &[u8]) -> bool
    ensures { result ≡ is_alike kind len front.now }
{
    match kind {
        OutKind::Script => front.starts_with(b"norscript 1\n"),
        OutKind::Hex => begins_record(front),
        OutKind::Waveform => front.starts_with(b"$timescale "),
        OutKind::Picture => front.starts_with(b"<svg "),
        OutKind::Content(size) => len == size,
    }
}

/// Whether a text begins as a record of Intel HEX does: a colon, and the digits of a length, an
/// address and a type.
fn begins_record(front: &[u8]) -> bool
    ensures { result ≡ begins_record front.now }
{
    front.starts_with(b":") && front.len() > 8 && are_digits(&front[1..9])
}

/// Whether each byte is a hexadecimal digit.
fn are_digits(text: &[u8]) -> bool
    ensures { result ≡ list_all is_ascii_hexdigit text.now }
{
    text.iter().all(|byte| byte.is_ascii_hexdigit())
}

/// The first bytes of a file, at most 12.
fn read_front<F: Read + Drop>(
    alloc: Global,
    mut file: F,
    name: FileName,
) -> Result<Vec<u8>, Refusal>
    ensures front { IfOk result
        (λ bytes. IfSome (F.remaining file) (λ all. bytes.items ≡ take 12 all)) }
    ensures refused { IfErr result (Denies name) }
{
    let mut bytes = Vec::new(alloc);
    match (&mut file).take(FRONT).read_to_end(&mut bytes) {
        Ok(_) => Ok(bytes),
        Err(error) => Err(refusal_of(&error, name)),
    }
}
