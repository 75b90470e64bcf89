//! What an image gives each chosen region.

ghost use Rattle.std.specs.Prelude.{◌≡◌, ◌<◌, ◌≤◌, ◌^◌, IfOk, IfErr, filter_map};
ghost use Rattle.nor_hex.specs.Image.{byte_at};
ghost use Rattle.nor_layout.specs.declared.fault.LayoutFault.TheVariants.{Memory};
ghost use Rattle.nor_target.specs.Shares.{share, share_in, given_between, region_named, whole_chip};
ghost use Rattle.nor_target.specs.Shares.{chosen_regions, first_empty};

use crate::{given, next_run};
use nor_base::Bytes;
use nor_hex::Image;
use nor_layout::{LayoutFault, Region};
use std::alloc::Global;

/// What an image gives a region of a chip.
#[derive(Clone, Copy)]
pub struct Share {
    /// How many addresses of the region have a byte.
    pub count: u64,
    /// The lowest of them.
    pub first: u32,
}

/// What the image gives the addresses of a region below `size` (bytes of the chip); None where it
/// gives them no byte. Chip address a takes the image's byte at `base + a`. It takes no memory.
pub fn share_of(image: &Image, base: u32, size: u32, region: &Region<'_>) -> Option<Share>
    ensures { result ≡ share_in (byte_at image.now) base size region.now }
{
    let end = (u64::from(region.end) + 1).min(u64::from(size)) as usize;
    share_between(image, base, region.start as usize, end)
}

/// What the image gives the chip's addresses from `begin` on and below `end`.
fn share_between(image: &Image, base: u32, begin: usize, end: usize) -> Option<Share>
    requires { end ≤ 2 ^ 32 }
    ensures { result ≡ share (given_between (byte_at image.now) base begin end) }
{
    // Called for what it promises: the addresses rise, and none is past FFFFFFFFh.
    let _ = image.iter();
    if begin >= end {
        return None;
    }
    let (first, _) = next_run(image, base, 0, begin, end)?;
    Some(Share {
        count: given(image, base, begin, end),
        first: first as u32,
    })
}

/// The regions of these names, in the order of the names. Where there is no name, the whole chip as
/// a region `chip`.
///
/// A name that no region has is left out. `Memory` where a growth is refused.
pub fn chosen_regions<'a>(
    alloc: Global,
    regions: &[Region<'a>],
    names: &[Bytes],
    size: u32,
) -> Result<Vec<Region<'a>>, LayoutFault>
    requires { 0 < size }
    ensures regions { IfOk result (λ chosen. chosen.items
        ≡ chosen_regions regions.now names.now size) }
    ensures refused { IfErr result (λ fault. fault ≡ Memory) }
{
    if names.is_empty() {
        return Ok(vec![in alloc; whole_chip(size)]?);
    }
    named_regions(alloc, regions, names)
}

/// The whole chip, as a region.
fn whole_chip<'a>(size: u32) -> Region<'a>
    requires { 0 < size }
    ensures { result ≡ whole_chip size }
{
    Region {
        start: 0,
        end: size - 1,
        name: b"chip",
    }
}

/// The regions of these names, in the order of the names. `Memory` where a growth is refused.
fn named_regions<'a>(
    alloc: Global,
    regions: &[Region<'a>],
    names: &[Bytes],
) -> Result<Vec<Region<'a>>, LayoutFault>
    ensures regions { IfOk result (λ chosen. chosen.items
        ≡ filter_map (region_named regions.now) names.now) }
    ensures refused { IfErr result (λ fault. fault ≡ Memory) }
{
    let mut chosen = Vec::new(alloc);
    for name in names {
        if let Some(region) = region_named(regions, name.as_slice()) {
            chosen.push(region)?;
        }
    }
    Ok(chosen)
}

/// The region of this name, byte for byte.
fn region_named<'a>(regions: &[Region<'a>], name: &[u8]) -> Option<Region<'a>>
    ensures { result ≡ region_named regions.now name.now }
{
    for region in regions {
        if region.name == name {
            return Some(Region {
                start: region.start,
                end: region.end,
                name: region.name,
            });
        }
    }
    None
}

/// The index of the first of these regions to which the image gives no byte.
pub fn first_empty(image: &Image, base: u32, size: u32, regions: &[Region<'_>]) -> Option<usize>
    ensures { result ≡ first_empty (byte_at image.now) base size regions.now }
{
    regions
        .iter()
        .position(|region| share_of(image, base, size, region).is_none())
}
