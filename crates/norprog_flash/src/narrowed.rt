//! A build of just the bytes that are to change.

ghost use Rattle.std.specs.Prelude.{◌≡◌, ◌+◌, ◌<◌, ◌≤◌, ◌^◌, length, slice_range, IfOk, IfErr};
ghost use Rattle.nor_job.specs.declared.fault.BuildFault.TheVariants.{Memory};
ghost use Rattle.nor_job.specs.Task.{origin_of};
ghost use Rattle.norprog_flash.specs.Narrowed.{narrowed, SpansDifference};

use crate::span::differing;
use nor_job::{BuildFault, Inputs, Source};
use nor_target::Image;
use std::alloc::Global;

/// The image of the wanted bytes, from the first to the last that is another than the chip's.
pub(crate) fn difference(alloc: Global, have: &[u8], want: &[u8]) -> Result<Image, BuildFault>
    requires lengths { length have.now ≡ length want.now }
    requires few { length have.now < 2 ^ 32 }
    ensures spans { IfOk result (SpansDifference have.now want.now) }
    ensures memory { IfErr result (λ why. why ≡ Memory) }
{
    let (low, high) = differing(have, want);
    match Image::of_bytes(alloc, low as u32, &want[low..high]) {
        Ok(image) => Ok(image),
        Err(_) => Err(BuildFault::Memory),
    }
}

/// The same job with this image and no other choice of addresses.
pub(crate) fn narrowed<'a>(inputs: &'a Inputs<'_>, image: &'a Image) -> Inputs<'a>
    ensures { result ≡ narrowed inputs.now image.now }
{
    Inputs {
        hex: &[],
        image: Some(image),
        layout: None,
        regions: &[],
        chip: chip_in(inputs),
        part: inputs.part,
        status: inputs.status,
        mode4: inputs.mode4,
        quad: inputs.quad,
        base: 0,
        verify: inputs.verify,
        erased_only: inputs.erased_only,
        page: inputs.page,
    }
}

/// Where the meaning of the job's chip comes from.
fn chip_in<'a>(inputs: &'a Inputs<'_>) -> Source<'a>
    ensures { origin_of result ≡ inputs.now.chip }
{
    match inputs.chip {
        Source::Sfdp { bytes, bits } => Source::Sfdp { bytes, bits },
        Source::Uniform(size) => Source::Uniform(size),
        Source::Sheet(text) => Source::Sheet(text),
    }
}
