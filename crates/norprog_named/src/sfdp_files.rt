//! `sfdp` on its file.

ghost use Rattle.norprog_files.specs.Files.{Did};
ghost use Rattle.norprog_named.specs.Sfdp.{EndsSfdp};

use crate::job::read_tables;
use nor_base::Meaning;
use norprog_common::{Refusal, Setup, known_chip, setup_inputs};
use norprog_files::{Files, Trail};
use std::alloc::Global;

/// What the tables of a chip mean, or its size (docs/FORMATS.md, section 9).
pub fn meaning_of<F: Files>(
    alloc: Global,
    files: &F,
    trail: &mut F::Trail,
    setup: Setup<'_>,
) -> Result<Meaning, Refusal>
    ensures { Did (F.Trail.did trail.old) (F.Trail.did trail.new)
        (λ log. EndsSfdp setup.entry log result) }
{
    let tables = read_tables(alloc, files, trail, setup.chip)?;
    let inputs = setup_inputs(setup, tables.as_slice());
    let (meaning, _start) = known_chip(&inputs)?;
    Ok(meaning)
}
