//! Why the system doesn't open a file.

ghost use Rattle.norprog_files.specs.Files.{Did};
ghost use Rattle.norprog_files.specs.Guards.{AreQuestions};

use crate::disk::{Disk, How, Kind};
use crate::guards::{DRIVERS, open_seen, read_opened};
use crate::terminal::is_listed;
use norprog_common::FileName;
use std::alloc::Global;
use std::io::{self, ErrorKind};

const NO_TERMINAL: &str = "not a terminal";

/// Why a file isn't opened to be read; a folder is none. Nothing but a regular file is opened.
pub(crate) fn open_error<D: Disk>(disk: &D, calls: &mut D::Calls, path: &str) -> Option<io::Error>
    ensures { Did (D.Calls.did calls.old) (D.Calls.did calls.new) AreQuestions }
{
    let stat = match disk.stat(calls, path) {
        Ok(stat) => stat,
        Err(error) => return Some(error),
    };
    match stat.kind {
        Kind::Folder => Some(io::Error::from(ErrorKind::IsADirectory)),
        Kind::Regular => disk.open(calls, path, How::Read).err(),
        Kind::Characters(_) | Kind::Other => None,
    }
}

/// Why a device isn't opened to be read and written. A terminal is opened for that, and closed; of
/// anything else it is said that it is none.
pub(crate) fn device_error<D: Disk>(
    disk: &D,
    calls: &mut D::Calls,
    alloc: Global,
    path: &str,
) -> Option<io::Error>
    ensures { Did (D.Calls.did calls.old) (D.Calls.did calls.new) AreQuestions }
{
    let stat = match disk.stat(calls, path) {
        Ok(stat) => stat,
        Err(error) => return Some(error),
    };
    let Kind::Characters(device) = stat.kind else {
        return Some(io::Error::other(NO_TERMINAL));
    };
    let Ok((list, _seen)) = open_seen(disk, calls, DRIVERS, How::Read, FileName::Device) else {
        return None;
    };
    let Ok(bytes) = read_opened(alloc, list, FileName::Device) else {
        return None;
    };
    match str::from_utf8(bytes.as_slice()) {
        Ok(drivers) if is_listed(drivers, device) => terminal_error(disk, calls, path),
        _ => Some(io::Error::other(NO_TERMINAL)),
    }
}

/// Why a terminal isn't opened to be read and written.
fn terminal_error<D: Disk>(disk: &D, calls: &mut D::Calls, path: &str) -> Option<io::Error>
    ensures { Did (D.Calls.did calls.old) (D.Calls.did calls.new) AreQuestions }
{
    match disk.open(calls, path, How::Read) {
        Ok(_from) => disk.open(calls, path, How::Write).err(),
        Err(error) => Some(error),
    }
}
