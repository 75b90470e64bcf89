//! The image of a job that erases.

ghost use Rattle.std.specs.Prelude.{◌≡◌, IfOk, IfErr};
ghost use Rattle.nor_job.specs.declared.fault.BuildFault.TheVariants.{Memory};
ghost use Rattle.norprog_common.specs.declared.faults.Refusal.TheVariants.{Build};
ghost use Rattle.norprog_flash.specs.Task.{blank_image};

use nor_hex::Image;
use norprog_common::Refusal;
use std::alloc::Global;

/// As many addresses as there are.
const ADDRESSES: usize = 1 << 32;

/// The image that gives each byte of a chip of this size FFh, where that is asked for.
pub(crate) fn blank_image(alloc: Global, blank: bool, size: usize) -> Result<Option<Image>, Refusal>
    ensures image { IfOk result (λ image. image ≡ blank_image blank size) }
    ensures memory { IfErr result (λ why. why ≡ Build Memory) }
{
    if !blank {
        return Ok(None);
    }
    if size > ADDRESSES {
        return Err(Refusal::MEMORY);
    }
    let Ok(bytes) = vec![in alloc; 0xFFu8; size] else {
        return Err(Refusal::MEMORY);
    };
    match Image::of_bytes(alloc, 0, bytes.as_slice()) {
        Ok(image) => Ok(Some(image)),
        Err(_) => Err(Refusal::MEMORY),
    }
}
