//! The chosen regions of a job, and which of them its image leaves out.

ghost use Rattle.std.specs.Prelude.{◌≡◌, ◌<◌, ℕ, List, Option, IfOk, IfErr, option_map};
ghost use Rattle.nor_base.specs.Parameters.{Parameters};
ghost use Rattle.nor_hex.specs.Image.{Pairs};
ghost use Rattle.nor_layout.specs.Region.{Region as NamedRegion};
ghost use Rattle.nor_job.specs.declared.fault.BuildFault.TheVariants.{Memory};
ghost use Rattle.nor_job.specs.Causes.{LayoutSays, AreAccepted, RefusesInputs};
ghost use Rattle.nor_job.specs.Shares.{HasFirstEmpty};
ghost use Rattle.nor_target.specs.Shares.{chosen_regions};

use crate::fault::BuildFault;
use crate::inputs::Inputs;
use crate::job::job_of;
use nor_layout::Region;
use nor_target::first_empty;
use std::alloc::Global;

/// The chosen regions of the inputs' layout, in the order of their names; where none is named the
/// whole chip, of `size` bytes.
///
/// `Layout` where the layout is refused; `Memory` where a growth is.
pub fn chosen_regions<'a>(
    alloc: Global,
    inputs: &Inputs<'a>,
    size: u32,
) -> Result<Vec<Region<'a>>, BuildFault>
    requires { 0 < size }
    ensures regions { (regions : List NamedRegion) → LayoutSays inputs.now.layout regions
        → IfOk result (λ chosen. chosen.items ≡ chosen_regions regions inputs.now.regions size) }
    ensures only_memory { (regions : List NamedRegion) → LayoutSays inputs.now.layout regions
        → IfErr result (λ fault. fault ≡ Memory) }
{
    let Some(text) = inputs.layout else {
        let none: &[Region<'a>] = &[];
        return Ok(nor_target::chosen_regions(alloc, none, inputs.regions, size)?);
    };
    let layout = nor_layout::read(alloc, text)?;
    Ok(nor_target::chosen_regions(alloc, layout.regions(), inputs.regions, size)?)
}

/// The index, from 0, of the first chosen region to which the image gives no byte, of inputs that a
/// build accepts whose content has `len` bytes. Where no region is named, the whole chip is the
/// only one.
///
/// Each fault that [`job_of`] has.
pub fn empty_region(
    alloc: Global,
    inputs: &Inputs<'_>,
    len: u64,
) -> Result<Option<usize>, BuildFault>
    ensures found { IfOk result (HasFirstEmpty inputs.now len) }
    ensures only { (index : Option ℕ) → HasFirstEmpty inputs.now len index
        → IfOk result (λ found. found ≡ index) }
    ensures refused { IfErr result (RefusesInputs inputs.now len) }
    ensures only_memory { (image : Pairs) (regions : List NamedRegion) (m : Parameters)
        → AreAccepted inputs.now len image regions m
        → IfErr result (λ fault. fault ≡ Memory) }
{
    let job = job_of(alloc, inputs, len)?;
    let size = job.meaning.size;
    let regions = chosen_regions(alloc, inputs, size)?;
    Ok(first_empty(&job.image, job.base, size, regions.as_slice()))
}
