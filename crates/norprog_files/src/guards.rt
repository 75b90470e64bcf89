//! When a file is opened, made or emptied, and when it isn't.

ghost use Rattle.std.specs.Io.Buffered.{writer_contents};
ghost use Rattle.std.specs.Io.KnownBytes.{Keeps};
ghost use Rattle.std.specs.Prelude.{◌≡◌, ◌&&◌, ◌++◌, IfErr, IfOk, IfSome, List, is_ok, nat_eq};
ghost use Rattle.norprog_files.specs.declared.disk.FileId.{FileId as Id};
ghost use Rattle.norprog_files.specs.Files.{Denies, Did};
ghost use Rattle.norprog_files.specs.Guards.{EndsApart, EndsInput, EndsLook, EndsOpen, EndsOutput};
ghost use Rattle.norprog_files.specs.Guards.{EndsDevice, FindsTerminal, GoesOut, OpensSame};
ghost use Rattle.norprog_files.specs.Guards.{printed_to};

use crate::disk::{Disk, FileId, How, Kind, Stat};
use crate::replaced::{OutKind, only_alike};
use crate::terminal::is_listed;
use norprog_common::{FileName, OutFile, Refusal};
use std::alloc::Global;
use std::io::{self, BufReader, BufWriter, ErrorKind, Read, Write};

/// A file of more bytes counts as one that couldn't be read.
pub(crate) const MOST_BYTES: u64 = 1 << 36;

/// The system's list of the drivers of terminals.
pub(crate) const DRIVERS: &str = "/proc/tty/drivers";

/// The name of the file of standard output.
const STDOUT: &str = "/dev/stdout";

/// Opens a file to be read, unless it is a folder, and adds to `opened` which one it is. Returns
/// its length in bytes as well.
pub(crate) fn open_input<D: Disk>(
    disk: &D,
    calls: &mut D::Calls,
    opened: &mut Vec<FileId>,
    path: &str,
    name: FileName,
) -> Result<(D::File, u64), Refusal>
    ensures { Did (D.Calls.did calls.old) (D.Calls.did calls.new) (λ log. (more : List Id)
        × (opened.new.items ≡ opened.old.items ++ more)
        × EndsInput path.now name log more result) }
{
    let (file, stat) = open_seen(disk, calls, path, How::Read, name)?;
    if let Kind::Folder = stat.kind {
        return Err(Refusal::File(name));
    }
    opened.push(stat.id)?;
    Ok((file, stat.len))
}

/// Makes an output, or empties the one that is there, unless it is one of the files that were
/// opened or the regular file that standard output goes to, or holds bytes of another kind.
pub(crate) fn open_output<D: Disk>(
    disk: &D,
    calls: &mut D::Calls,
    alloc: Global,
    out: OutFile<'_>,
    kind: OutKind,
    opened: &[FileId],
) -> Result<D::File, Refusal>
    ensures { Did (D.Calls.did calls.old) (D.Calls.did calls.new)
        (λ log. EndsOutput D.File.remaining out.entry kind opened.now log result) }
{
    let name = kind.name();
    let found = disk.stat(calls, out.path);
    let printed = disk.stat(calls, STDOUT);
    only_apart(found, opened, name)?;
    only_unprinted(found, printed, name)?;
    only_alike(disk, calls, alloc, out, found, kind)?;
    open_as(disk, calls, out.path, How::Empty, name)
}

/// Refuses what is there and is one of these files, or can't be asked about.
fn only_apart(found: io::Result<Stat>, places: &[FileId], name: FileName) -> Result<(), Refusal>
    ensures { EndsApart places.now name found result }
{
    match found {
        Ok(stat) if places.contains(&stat.id) => Err(Refusal::File(name)),
        Ok(_) => Ok(()),
        Err(error) if error.kind() == ErrorKind::NotFound => Ok(()),
        Err(error) => Err(refusal_of(&error, name)),
    }
}

/// Refuses what is the regular file that standard output goes to.
fn only_unprinted(
    found: io::Result<Stat>,
    printed: io::Result<Stat>,
    name: FileName,
) -> Result<(), Refusal>
    ensures { EndsApart (printed_to printed) name found result }
{
    match printed {
        Ok(
            Stat {
                id,
                kind: Kind::Regular,
                len: _,
            },
        ) => only_apart(found, &[id], name),
        _ => only_apart(found, &[], name),
    }
}

/// Opens a file so.
pub(crate) fn open_as<D: Disk>(
    disk: &D,
    calls: &mut D::Calls,
    path: &str,
    how: How,
    name: FileName,
) -> Result<D::File, Refusal>
    ensures { Did (D.Calls.did calls.old) (D.Calls.did calls.new)
        (λ log. EndsOpen path.now how name log result) }
{
    match disk.open(calls, path, how) {
        Ok(file) => Ok(file),
        Err(error) => Err(refusal_of(&error, name)),
    }
}

/// Opens a file so, and asks what it is.
pub(crate) fn open_seen<D: Disk>(
    disk: &D,
    calls: &mut D::Calls,
    path: &str,
    how: How,
    name: FileName,
) -> Result<(D::File, Stat), Refusal>
    ensures { Did (D.Calls.did calls.old) (D.Calls.did calls.new)
        (λ log. EndsLook path.now how name log result) }
{
    let file = match disk.open(calls, path, how) {
        Ok(file) => file,
        Err(error) => return Err(refusal_of(&error, name)),
    };
    match disk.stat_of(calls, &file) {
        Ok(stat) => Ok((file, stat)),
        Err(error) => Err(refusal_of(&error, name)),
    }
}

/// Opens this file of a device so, if it is still the one of its name.
pub(crate) fn open_same<D: Disk>(
    disk: &D,
    calls: &mut D::Calls,
    path: &str,
    how: How,
    place: FileId,
) -> Result<D::File, Refusal>
    ensures { Did (D.Calls.did calls.old) (D.Calls.did calls.new)
        (λ log. OpensSame path.now how place log result) }
{
    let asked = match disk.stat(calls, path) {
        Ok(stat) => stat,
        Err(error) => return Err(refusal_of(&error, FileName::Device)),
    };
    if asked.id != place {
        return Err(Refusal::File(FileName::Device));
    }
    let (file, seen) = open_seen(disk, calls, path, how, FileName::Device)?;
    if seen.id != place {
        return Err(Refusal::File(FileName::Device));
    }
    Ok(file)
}

/// Opens a terminal to read from it, and then to write to it. Nothing else is opened to write, and
/// nothing is made or emptied.
pub(crate) fn open_terminal<D: Disk>(
    disk: &D,
    calls: &mut D::Calls,
    alloc: Global,
    path: &str,
) -> Result<(BufReader<D::File>, D::File), Refusal>
    ensures { Did (D.Calls.did calls.old) (D.Calls.did calls.new)
        (λ log. EndsDevice D.File.remaining path.now log result) }
{
    let place = find_terminal(disk, calls, alloc, path)?;
    let from = open_same(disk, calls, path, How::Read, place)?;
    let Ok(from) = BufReader::new(alloc, from) else {
        return Err(Refusal::MEMORY);
    };
    let to = open_same(disk, calls, path, How::Write, place)?;
    Ok((from, to))
}

/// Which terminal has this name: a character device that a driver of terminals has. One of another
/// kind may take what is written to it as something else.
fn find_terminal<D: Disk>(
    disk: &D,
    calls: &mut D::Calls,
    alloc: Global,
    path: &str,
) -> Result<FileId, Refusal>
    ensures { Did (D.Calls.did calls.old) (D.Calls.did calls.new)
        (λ log. FindsTerminal D.File.remaining path.now log result) }
{
    let name = FileName::Device;
    let stat = match disk.stat(calls, path) {
        Ok(stat) => stat,
        Err(error) => return Err(refusal_of(&error, name)),
    };
    let Kind::Characters(device) = stat.kind else {
        return Err(Refusal::File(name));
    };
    let (list, _seen) = open_seen(disk, calls, DRIVERS, How::Read, name)?;
    let bytes = read_opened(alloc, list, name)?;
    match str::from_utf8(bytes.as_slice()) {
        Ok(drivers) if is_listed(drivers, device) => Ok(stat.id),
        _ => Err(Refusal::File(name)),
    }
}

/// What an open file gives from where it stands on, at most 2^36 bytes.
pub(crate) fn read_opened<F: Read + Drop>(
    alloc: Global,
    mut file: F,
    name: FileName,
) -> Result<Vec<u8>, Refusal>
    ensures whole { IfOk result (λ bytes. IfSome (F.remaining file) (λ rest. bytes.items ≡ rest)) }
    ensures refused { IfErr result (Denies name) }
{
    let mut bytes = Vec::new(alloc);
    match (&mut file).take(MOST_BYTES + 1).read_to_end(&mut bytes) {
        Ok(_) => {}
        Err(error) => return Err(refusal_of(&error, name)),
    }
    if bytes.len() as u64 > MOST_BYTES {
        return Err(Refusal::File(name));
    }
    Ok(bytes)
}

/// Has all go out that a file took, to the disk where it is a regular one. What has no disk, as a
/// pipe, can't be synced.
pub(crate) fn write_out<D: Disk>(
    disk: &D,
    calls: &mut D::Calls,
    file: &mut BufWriter<D::File>,
) -> io::Result<()>
    ensures out { Did (D.Calls.did calls.old) (D.Calls.did calls.new)
        (λ log. GoesOut file.new log result) }
    ensures kept { Keeps (writer_contents D.File.contents file.old)
        (writer_contents D.File.contents file.new) }
{
    file.flush()?;
    let inner = file.get_ref();
    let stat = disk.stat_of(calls, inner)?;
    match stat.kind {
        Kind::Regular => disk.sync(calls, inner),
        _ => Ok(()),
    }
}

/// A flush that failed is a failure, and so is that of a file which failed before, so often.
pub(crate) fn gone_out(flushed: io::Result<()>, failed: u64) -> Result<(), nor_base::Failed>
    ensures { is_ok result ≡ is_ok flushed && nat_eq failed 0 }
{
    match flushed {
        Ok(()) if failed == 0 => Ok(()),
        _ => Err(nor_base::Failed),
    }
}

/// Out of memory is that; any other error says that the file can't be used.
pub(crate) fn refusal_of(error: &io::Error, name: FileName) -> Refusal
    ensures { Denies name result }
{
    if error.kind() == ErrorKind::OutOfMemory {
        Refusal::MEMORY
    } else {
        Refusal::File(name)
    }
}
