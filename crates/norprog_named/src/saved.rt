//! Bytes that are saved in a new file.

ghost use Rattle.std.specs.Prelude.{option_map};
ghost use Rattle.norprog_files.specs.Files.{Did};
ghost use Rattle.norprog_named.specs.Saved.{Saves, SavesIf};

use nor_base::put_all;
use norprog_common::{FileName, Refusal};
use norprog_files::{Files, Trail};
use std::alloc::Global;

/// Saves bytes in a new file, where one is named.
pub(crate) fn save_if<F: Files>(
    alloc: Global,
    files: &F,
    trail: &mut F::Trail,
    path: Option<&str>,
    name: FileName,
    bytes: &[u8],
) -> Result<(), Refusal>
    ensures { Did (F.Trail.did trail.old) (F.Trail.did trail.new)
        (λ log. SavesIf (option_map (λ t. t.now) path.entry) name bytes.now log result) }
{
    match path {
        Some(path) => save(alloc, files, trail, path, name, bytes),
        None => Ok(()),
    }
}

/// Makes a new file, writes bytes to it and closes it. No other file is made or emptied.
pub(crate) fn save<F: Files>(
    alloc: Global,
    files: &F,
    trail: &mut F::Trail,
    path: &str,
    name: FileName,
    bytes: &[u8],
) -> Result<(), Refusal>
    ensures { Did (F.Trail.did trail.old) (F.Trail.did trail.new)
        (λ log. Saves path.now name bytes.now log result) }
{
    let mut file = files.create_new(trail, alloc, path, name)?;
    // A file that fails here isn't closed as one of which all has gone out.
    let _ = put_all(&mut file, bytes);
    match files.close(trail, path, file) {
        Ok(()) => Ok(()),
        Err(_) => Err(Refusal::WRITE),
    }
}
