//! Files of an image laid together.

ghost use Rattle.std.specs.Prelude.{IfErr, IfOk};
ghost use Rattle.nor_hex.specs.Faults.{IsImage};
ghost use Rattle.norprog_common.specs.Image.{IsImageIn, IsJoined, RefusesHex, RefusesImage};
ghost use Rattle.norprog_common.specs.Image.{RefusesJoin};

use crate::faults::Refusal;
use crate::image::ImageData;
use nor_hex::{Image, UnionFault, read};
use nor_job::BuildFault;
use std::alloc::Global;

/// The image of a text of Intel HEX.
fn hex_image(alloc: Global, text: &[u8]) -> Result<Image, Refusal>
    ensures image { IfOk result (λ image. IsImage text.now image) }
    ensures refused { IfErr result (RefusesHex text.now) }
{
    match read(alloc, text) {
        Ok(image) => Ok(image),
        Err(fault) => Err(Refusal::Build(BuildFault::from(fault))),
    }
}

/// The image that is given: of a text the one that it spells.
///
/// `Build` as [`nor_hex::read`] reports a fault of the text.
pub fn given_image(alloc: Global, given: ImageData) -> Result<Image, Refusal>
    ensures image { IfOk result (IsImageIn given) }
    ensures refused { IfErr result (RefusesImage given) }
{
    match given {
        ImageData::Text(text) => hex_image(alloc, text.as_slice()),
        ImageData::Image(image) => Ok(image),
    }
}

/// The image that gives what this one gives, and what is given beside it.
///
/// `Build` as [`given_image`]; `Conflict` of the lowest address that both give, differently;
/// `Memory` where a growth is refused.
pub fn joined(alloc: Global, image: &Image, beside: ImageData) -> Result<Image, Refusal>
    ensures joined { IfOk result (IsJoined image.now beside) }
    ensures refused { IfErr result (RefusesJoin image.now beside) }
{
    let other = given_image(alloc, beside)?;
    match image.union(alloc, &other) {
        Ok(both) => Ok(both),
        Err(UnionFault::Conflict { address }) => Err(Refusal::Conflict(address)),
        Err(UnionFault::Memory) => Err(Refusal::MEMORY),
    }
}
