//! The chip of a command that does no build, and how it begins.

ghost use Rattle.std.specs.Prelude.{◌≡◌, is_some, IfOk, IfErr, IfSome};
ghost use Rattle.nor_job.specs.Status.{start_of};
ghost use Rattle.norprog_common.specs.Setup.{is_setup, setup_task, AsksSetup, IsKnown};
ghost use Rattle.norprog_common.specs.Setup.{RefusesChipOf};

use crate::chip::{Chip, chip_of, optional_status, source_of};
use crate::faults::Refusal;
use crate::given::SetupArgs;
use crate::values::part;
use nor_base::{Meaning, Part, Start};
use nor_job::{BuildFault, Inputs, contradiction};

/// A chip and how it begins: each value is of its form.
#[derive(Clone, Copy)]
pub struct Setup<'a> {
    pub chip: Chip<'a>,
    pub part: Part,
    pub status: Option<u32>,
    pub mode4: bool,
    pub quad: bool,
    pub erased_only: bool,
    /// Bytes of the chip's page, where its meaning only says the least that they may be.
    pub page: Option<u32>,
}

/// The chip that the values spell, and how it begins; of its page nothing is said. None where one
/// isn't of its form.
pub fn setup_of<'a>(given: SetupArgs<'a>) -> Option<Setup<'a>>
    ensures forms { is_some result ≡ is_setup given.entry }
    ensures values { IfSome result (AsksSetup given.entry) }
{
    Some(Setup {
        chip: chip_of(
            given.chip.sfdp,
            given.chip.uniform,
            given.chip.sheet,
            given.chip.bits,
        )?,
        part: part(given.chip.part.unwrap_or("generic"))?,
        status: optional_status(given.status)?,
        mode4: given.mode4,
        quad: given.quad,
        erased_only: given.erased_only,
        page: None,
    })
}

/// The library's inputs: the chip, which has these tables where it has any, and nothing to be done.
pub fn setup_inputs<'a>(setup: Setup<'a>, tables: &'a [u8]) -> Inputs<'a>
    ensures { result ≡ setup_task setup.entry tables.entry.now }
{
    Inputs {
        hex: &[],
        image: None,
        layout: None,
        regions: &[],
        chip: source_of(setup.chip, tables),
        part: setup.part,
        status: setup.status,
        mode4: setup.mode4,
        quad: setup.quad,
        base: 0,
        verify: false,
        erased_only: setup.erased_only,
        page: setup.page,
    }
}

/// The chip that the inputs describe, and how it begins.
///
/// `Contradiction` 1 to 5, `Sfdp` or `Sheet`, `Contradiction` 6, `Status` and `ModeImpossible`, in
/// this order.
pub fn known_chip(inputs: &Inputs<'_>) -> Result<(Meaning, Start), Refusal>
    ensures known { IfOk result (λ chip. IsKnown inputs.now chip.0) }
    ensures start { IfOk result (λ chip. chip.1 ≡ start_of inputs.now) }
    ensures refused { IfErr result (RefusesChipOf inputs.now) }
{
    if let Some(number) = contradiction(inputs) {
        return Err(Refusal::Build(BuildFault::Contradiction(number)));
    }
    match nor_job::chip_of(inputs) {
        Ok(chip) => Ok(chip),
        Err(fault) => Err(Refusal::Build(fault)),
    }
}
