//! The chip that a build is for.

ghost use Rattle.std.specs.Prelude.{◌≡◌, IsOk, IfOk, IfErr};
ghost use Rattle.std.specs.List.{list_any};
ghost use Rattle.nor_base.specs.Parameters.{Parameters};
ghost use Rattle.nor_job.specs.Chip.{ChipSays, HasChip, OriginSays, RefusesChip};
ghost use Rattle.nor_job.specs.Chip.{fits, paged, profiled, uniform_says};
ghost use Rattle.nor_sheet.specs.Meaning.{is_below};
ghost use Rattle.nor_job.specs.Status.{start_of};

use crate::fault::BuildFault;
use crate::inputs::{Inputs, Source};
use crate::status::{start_of, status_fault};
use nor_base::{Erase, Meaning, Start, Width};
use nor_sfdp::SfdpFault;

/// What the inputs say of the chip, and how it begins. It looks neither at image nor layout, nor
/// for a contradiction, and takes no memory.
///
/// `Sfdp` or `Sheet` where the chip's meaning is refused; else `Contradiction` where no chip of it
/// has the page; else `Status` where it isn't idle and unprotected; else `ModeImpossible`.
pub fn chip_of(inputs: &Inputs<'_>) -> Result<(Meaning, Start), BuildFault>
    ensures chip { IfOk result (λ chip. HasChip inputs.now chip.0) }
    ensures start { IfOk result (λ chip. chip.1 ≡ start_of inputs.now) }
    ensures refused { IfErr result (RefusesChip inputs.now) }
    ensures accepted { (m : Parameters) → HasChip inputs.now m → IsOk result }
{
    let meaning = meaning_of(inputs)?;
    if let Some(number) = status_fault(inputs.status) {
        return Err(BuildFault::Status(number));
    }
    let start = start_of(inputs);
    if start.mode4 && meaning.width == Width::Three {
        return Err(BuildFault::ModeImpossible);
    }
    Ok((meaning, start))
}

/// The chip's meaning, with the page that was said, under the profile that is asked for.
fn meaning_of(inputs: &Inputs<'_>) -> Result<Meaning, BuildFault>
    ensures says { IfOk result (λ m. ChipSays inputs.now m) }
    ensures refused { IfErr result (RefusesChip inputs.now) }
    ensures accepted { (m : Parameters) → ChipSays inputs.now m → IsOk result }
{
    let own = own_meaning(inputs)?;
    match paged(own, inputs.page) {
        Some(meaning) => Ok(profiled(meaning, inputs.erased_only)),
        None => Err(BuildFault::Contradiction(6)),
    }
}

/// The meaning with the page that was said; None where no chip of it has that.
fn paged(meaning: Meaning, page: Option<u32>) -> Option<Meaning>
    ensures { result ≡ paged page meaning }
{
    let Some(page) = page else {
        return Some(meaning);
    };
    if !fits(&meaning, page) {
        return None;
    }
    Some(Meaning {
        page,
        open_page: false,
        ..meaning
    })
}

/// Whether a chip of this meaning may have a page of so many bytes, and no erase of fewer.
fn fits(meaning: &Meaning, page: u32) -> bool
    ensures { result ≡ fits meaning.now page }
{
    meaning.may_page(page) && !has_below(&meaning.erases, page)
}

/// Whether an erase kind has fewer bytes than a page.
fn has_below(kinds: &[Option<Erase>], page: u32) -> bool
    ensures { result ≡ list_any (is_below page) kinds.now }
{
    kinds.iter().any(|kind| is_below(page, *kind))
}

/// Whether an erase kind, where it is there, has fewer bytes than a page.
fn is_below(page: u32, kind: Option<Erase>) -> bool
    ensures { result ≡ is_below page kind }
{
    kind.is_some_and(|erase| erase.size < page)
}

/// The chip's meaning, by its SFDP bytes, its size or its sheet.
fn own_meaning(inputs: &Inputs<'_>) -> Result<Meaning, BuildFault>
    ensures says { IfOk result (λ m. OriginSays inputs.now.chip inputs.now.part m) }
    ensures refused { IfErr result (RefusesChip inputs.now) }
    ensures accepted { (m : Parameters) → OriginSays inputs.now.chip inputs.now.part m
        → IsOk result }
{
    match inputs.chip {
        Source::Sfdp { bytes, bits } => Ok(nor_sfdp::read(bytes, bits, inputs.part)?),
        Source::Uniform(size) => Ok(uniform(size)?),
        Source::Sheet(text) => Ok(nor_sheet::read(text)?),
    }
}

/// The uniform chip of a size.
#[tactic(auto, unfolding(crate::specs::Chip::uniform_says))]
fn uniform(size: u32) -> Result<Meaning, SfdpFault>
    ensures { result ≡ uniform_says size }
{
    Meaning::uniform(size).ok_or(SfdpFault::Density)
}

/// The meaning under the profile that programs only erased bytes, where that is asked for.
fn profiled(meaning: Meaning, erased_only: bool) -> Meaning
    ensures { result ≡ profiled erased_only meaning }
{
    if erased_only {
        return meaning.erased_only_set();
    }
    meaning
}
