//! `read` on its files and its device.

ghost use Rattle.norprog_files.specs.Files.{Did};
ghost use Rattle.norprog_named.specs.Read.{EndsRead, EndsReading, SavesReading};

use crate::job::read_chip;
use crate::saved::save_if;
use nor_base::ByteOut;
use norprog_common::{FileName, Refusal};
use norprog_files::{Files, Trail};
use norprog_read::{Ask, ReadRequest, Reading, Unread, ask_of, check_file, read_opened};
use std::alloc::Global;

/// Reads the chip behind a device, closes the device, and saves what the chip gave in new files
/// (docs/FORMATS.md, sections 9 and 14). How far each reading is goes to `progress`.
pub fn read<F: Files, P: ByteOut>(
    alloc: Global,
    files: &F,
    trail: &mut F::Trail,
    request: ReadRequest<'_>,
    progress: &mut P,
) -> Result<Reading, Unread>
    ensures { Did (F.Trail.did trail.old) (F.Trail.did trail.new)
        (λ log. EndsRead request.entry log result) }
{
    let tables = read_chip(alloc, files, trail, request.chip)?;
    let ask = ask_of(request, tables.as_slice());
    check_file(&ask)?;
    let reading = read_device(alloc, files, trail, request.device, &ask, progress)?;
    save_reading(alloc, files, trail, request, &reading)?;
    Ok(reading)
}

/// Reads the chip behind the device of this name, and closes the device.
fn read_device<F: Files, P: ByteOut>(
    alloc: Global,
    files: &F,
    trail: &mut F::Trail,
    device: &str,
    ask: &Ask<'_>,
    progress: &mut P,
) -> Result<Reading, Unread>
    ensures { Did (F.Trail.did trail.old) (F.Trail.did trail.new)
        (λ log. EndsReading device.now ask.now log result) }
{
    let (mut from, mut to) = files.open_device(trail, alloc, device)?;
    let read = read_opened(alloc, &mut from, &mut to, ask, progress);
    files.close_device(trail, device, from, to);
    read
}

/// Saves the tables of a chip that was read, and then its content, each where a name is given.
fn save_reading<F: Files>(
    alloc: Global,
    files: &F,
    trail: &mut F::Trail,
    request: ReadRequest<'_>,
    reading: &Reading,
) -> Result<(), Refusal>
    ensures { Did (F.Trail.did trail.old) (F.Trail.did trail.new)
        (λ log. SavesReading request.entry reading.now log result) }
{
    let tables = reading.tables.as_slice();
    save_if(
        alloc,
        files,
        trail,
        request.tables,
        FileName::Tables,
        tables,
    )?;
    let content = reading.content.as_slice();
    save_if(alloc, files, trail, request.out, FileName::Out, content)
}
