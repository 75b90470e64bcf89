//! Images laid together.

ghost use Rattle.std.specs.Prelude.{◌≡◌, ℕ, ◌+◌, ◌≤◌, ◌^◌, length, OnOk, IfOk, IfErr, MatchOption};
ghost use Rattle.std.specs.Ordering.{nat_cmp};
ghost use Rattle.std.specs.BTreeMap.{get};
ghost use Rattle.nor_hex.specs.Image.{IsRunFrom, HasNoneFrom};
ghost use Rattle.nor_hex.specs.Pieces.{Gives, IsPieces};
ghost use Rattle.nor_hex.specs.Union.{AddsImage, AreAlike, ClashesAt, HasJust, IsFirstClash};
ghost use Rattle.nor_hex.specs.Union.{IsUnion};
ghost use Rattle.nor_hex.specs.declared.union.UnionFault.TheVariants.{Memory};

use crate::fault::HexFault;
use crate::image::Image;
use crate::pieces::{Pieces, add_run};
use crate::segments::joined;
use std::alloc::{AllocError, Allocator, Global};
use std::collections::BTreeMap;
use thiserror::Error;

/// Why two images have no union.
#[derive(Clone, Copy, Debug, PartialEq, Eq, Error)]
pub enum UnionFault {
    /// They give this address different bytes, and no lower one.
    #[error("address {address:#010x} has two bytes")]
    Conflict { address: u32 },
    #[error("out of memory")]
    Memory,
}

impl From<AllocError> for UnionFault {
    ghost from_gives = { λ _ e. e ≡ Memory };

    fn from(_error: AllocError) -> UnionFault {
        UnionFault::Memory
    }
}

impl From<HexFault> for UnionFault {
    ghost from_gives = { λ _ e. e ≡ Memory };

    fn from(_error: HexFault) -> UnionFault {
        UnionFault::Memory
    }
}

impl Image {
    /// The image of some bytes from an address on.
    pub fn of_bytes(alloc: Global, at: u32, bytes: &[u8]) -> Result<Image, HexFault>
        requires fits { at + length bytes.now ≤ 2 ^ 32 }
        ensures just { IfOk result (HasJust at bytes.now) }
    {
        let mut pieces = no_pieces(alloc);
        add_run(&mut pieces, at, bytes, 0)?;
        Ok(Image {
            segments: joined(alloc, pieces)?,
        })
    }

    /// The image that gives what this one gives, and what another gives.
    ///
    /// `Conflict` where they give an address different bytes; `Memory` where a growth is refused.
    pub fn union(&self, alloc: Global, other: &Image) -> Result<Image, UnionFault>
        ensures union { IfOk result (IsUnion self.now other.now) }
        ensures clash { IfErr result (ClashesAt self.now other.now) }
        ensures alike { AreAlike self.now other.now → IfErr result (λ fault. fault ≡ Memory) }
    {
        if let Some(address) = clash(self, other) {
            return Err(UnionFault::Conflict { address });
        }
        let mut pieces = no_pieces(alloc);
        add_image(&mut pieces, self)?;
        add_image(&mut pieces, other)?;
        Ok(Image {
            segments: joined(alloc, pieces)?,
        })
    }

    /// As [`Image::run_from`], where the address may be 2^32.
    fn run_past(&self, from: u64) -> Option<(u32, &[u8])>
        ensures { MatchOption result (HasNoneFrom self.now from)
            (λ run. IsRunFrom self.now from run.0 run.1.now) }
    {
        // Called for what it promises: no address is past FFFFFFFFh.
        let _ = self.iter();
        if from > u64::from(u32::MAX) {
            return None;
        }
        self.run_from(from as u32)
    }
}

/// The lowest address to which two images give different bytes.
fn clash(one: &Image, other: &Image) -> Option<u32>
    ensures { MatchOption result (AreAlike one.now other.now)
        (λ at. IsFirstClash one.now other.now at) }
{
    for (address, byte) in one.iter() {
        if other.at(address).unwrap_or(byte) != byte {
            return Some(address);
        }
    }
    None
}

/// Adds the bytes of an image.
fn add_image<A: Allocator + Clone>(pieces: &mut Pieces<A>, image: &Image) -> Result<(), HexFault>
    requires { IsPieces (get nat_cmp pieces.old.by_last) pieces.old.bytes.items }
    ensures pieces { OnOk result
        (IsPieces (get nat_cmp pieces.new.by_last) pieces.new.bytes.items) }
    ensures added { OnOk result
        (AddsImage (Gives (get nat_cmp pieces.old.by_last) pieces.old.bytes.items)
        (Gives (get nat_cmp pieces.new.by_last) pieces.new.bytes.items) image.now) }
{
    let mut from = 0u64;
    while let Some((at, bytes)) = image.run_past(from) {
        add_run(pieces, at, bytes, 0)?;
        from = u64::from(at) + bytes.len() as u64;
    }
    Ok(())
}

/// No bytes.
fn no_pieces(alloc: Global) -> Pieces<Global>
    ensures pieces { IsPieces (get nat_cmp result.by_last) result.bytes.items }
    ensures none { (address byte : ℕ) → Gives (get nat_cmp result.by_last) result.bytes.items
        address byte → ⊥ }
{
    Pieces {
        by_last: BTreeMap::new(alloc),
        bytes: Vec::new(alloc),
    }
}
