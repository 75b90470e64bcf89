//! What a build has to do, once its inputs are accepted.

ghost use Rattle.std.specs.Prelude.{◌≡◌, ℕ, List, None, IsOk, IfOk, IfErr};
ghost use Rattle.nor_base.specs.Parameters.{Parameters};
ghost use Rattle.nor_hex.specs.Image.{Pairs};
ghost use Rattle.nor_layout.specs.Region.{Region};
ghost use Rattle.nor_layout.specs.Chosen.{has, is_chosen};
ghost use Rattle.nor_job.specs.declared.fault.BuildFault.TheVariants.{Memory};
ghost use Rattle.nor_job.specs.Task.{contradiction};
ghost use Rattle.nor_job.specs.Status.{start_of};
ghost use Rattle.nor_job.specs.Causes.{AreAccepted, HasImage, HasRegions, ImageSays};
ghost use Rattle.nor_job.specs.Causes.{RefusesImage, RefusesInputs};
ghost use Rattle.nor_job.specs.Job.{IsJob};

use crate::chip::chip_of;
use crate::fault::BuildFault;
use crate::inputs::{Inputs, contradiction};
use nor_base::{Meaning, Start};
use nor_target::{Chosen, Image};
use std::alloc::Global;

/// What a build has to do.
#[derive(Drop)]
pub struct Job {
    /// The image of the text.
    pub image: Image,
    /// The addresses chosen.
    pub chosen: Chosen,
    /// The chip's meaning, with the profile as asked.
    pub meaning: Meaning,
    /// How the chip begins.
    pub start: Start,
    /// Chip address 0 takes the image's byte at this address.
    pub base: u32,
    /// Each byte that was written is read after it.
    pub verify: bool,
}

/// What the inputs ask for, of a chip whose content has `len` bytes.
///
/// The first fault that they have is reported, in the order in which [`BuildFault`] has them, from
/// `Contradiction` to `ContentSize`; `Memory` where a growth was refused.
pub fn job_of(alloc: Global, inputs: &Inputs<'_>, len: u64) -> Result<Job, BuildFault>
    ensures job { IfOk result (IsJob inputs.now len) }
    ensures refused { IfErr result (RefusesInputs inputs.now len) }
    ensures only_memory { (image : Pairs) (regions : List Region) (m : Parameters)
        → AreAccepted inputs.now len image regions m
        → IfErr result (λ fault. fault ≡ Memory) }
{
    consistent(inputs)?;
    let image = image_of(alloc, inputs)?;
    let chosen = choose(alloc, inputs)?;
    let (meaning, start) = sized_chip(inputs, len)?;
    Ok(Job {
        image,
        chosen,
        meaning,
        start,
        base: inputs.base,
        verify: inputs.verify,
    })
}

/// Refuses the first contradiction.
fn consistent(inputs: &Inputs<'_>) -> Result<(), BuildFault>
    ensures consistent { IfOk result (λ _. contradiction inputs.now ≡ None) }
    ensures refused { IfErr result (λ fault. (len : ℕ) → RefusesInputs inputs.now len fault) }
    ensures accepted { contradiction inputs.now ≡ None → IsOk result }
{
    match contradiction(inputs) {
        Some(number) => Err(BuildFault::Contradiction(number)),
        None => Ok(()),
    }
}

/// The image of inputs, whether they contradict one another or not: a copy of the one that was
/// given, else that of the text.
///
/// `Hex` with the text's first fault; `Memory` where a growth was refused.
pub fn image_of(alloc: Global, inputs: &Inputs<'_>) -> Result<Image, BuildFault>
    ensures image { IfOk result (ImageSays inputs.now.image inputs.now.hex) }
    ensures refused { IfErr result (RefusesImage inputs.now.image inputs.now.hex) }
    ensures only_memory { (image : Pairs) → ImageSays inputs.now.image inputs.now.hex image
        → IfErr result (λ fault. fault ≡ Memory) }
{
    match inputs.image {
        Some(image) => Ok(image.copied(alloc)?),
        None => Ok(nor_hex::read(alloc, inputs.hex)?),
    }
}

/// The chosen addresses; without a layout no region is named, and the whole chip is chosen.
///
/// `Layout` tells the layout's first fault, or the first name that no region has; `Memory` where a
/// growth was refused.
fn choose(alloc: Global, inputs: &Inputs<'_>) -> Result<Chosen, BuildFault>
    requires { (image : Pairs) × HasImage inputs.now image }
    ensures chosen { (image : Pairs) → HasImage inputs.now image
        → IfOk result (λ chosen. (regions : List Region)
        × HasRegions inputs.now image regions
        × ((a : ℕ) → has chosen a ≡ is_chosen regions inputs.now.regions a)) }
    ensures refused { IfErr result (λ fault. (len : ℕ) → RefusesInputs inputs.now len fault) }
    ensures accepted { (image : Pairs) (regions : List Region) → HasRegions inputs.now image regions
        → IfErr result (λ fault. fault ≡ Memory) }
{
    let text = match inputs.layout {
        Some(text) => text,
        None => return Ok(Chosen::whole()),
    };
    let layout = nor_layout::read(alloc, text)?;
    Ok(layout.choose(alloc, inputs.regions)?)
}

/// The chip and how it begins. `Sfdp`, `Status` and `ModeImpossible` as [`chip_of`] reports them;
/// else `ContentSize` where the content's length isn't the chip's size.
fn sized_chip(inputs: &Inputs<'_>, len: u64) -> Result<(Meaning, Start), BuildFault>
    requires named { (image : Pairs) × (regions : List Region)
        × HasRegions inputs.now image regions }
    ensures chip { (image : Pairs) (regions : List Region) → HasRegions inputs.now image regions
        → IfOk result (λ chip. AreAccepted inputs.now len image regions chip.0) }
    ensures start { IfOk result (λ chip. chip.1 ≡ start_of inputs.now) }
    ensures refused { IfErr result (RefusesInputs inputs.now len) }
    ensures accepted { (image : Pairs) (regions : List Region) (m : Parameters)
        → AreAccepted inputs.now len image regions m
        → IsOk result }
{
    let (meaning, start) = chip_of(inputs)?;
    if len != u64::from(meaning.size) {
        return Err(BuildFault::ContentSize);
    }
    Ok((meaning, start))
}
