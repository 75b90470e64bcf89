//! The memory image of a text.

ghost use Rattle.std.specs.Prelude.{◌≡◌, ◌↔◌, ◌<◌, ◌^◌, ℕ, length, Some, Contains, MatchOption};
ghost use Rattle.std.specs.Prelude.{IfOk, slice_index};
ghost use Rattle.std.specs.Iterator.{YieldsFirst, item_count};
ghost use Rattle.std.specs.List.Sorted.{IsStrictlyIncreasing};
ghost use Rattle.nor_hex.specs.Image.{byte_at, addresses, GivesBytes, IsRunFrom, HasNoneFrom};

use crate::segments::{Segment, Segments, next_segment};
use std::alloc::{AllocError, Global};
use std::marker::Model;

/// The bytes that a text gives, each at its address. Clauses see an image as the list of its
/// addresses with their bytes, the addresses rising.
#[derive(Drop)]
pub struct Image {
    pub(crate) segments: Segments<Global>,
}

impl Model for Image {
    ghost use Rattle.nor_hex.specs.Image.{Pairs};
    ghost use Rattle.nor_hex.specs.Segments.{pairs_of};

    ghost Value = { Pairs };

    ghost view = { λ s. pairs_of s.segments.list.items s.segments.bytes.items };
}

impl Image {
    /// The byte at an address, if the text gives it one.
    pub fn at(&self, address: u32) -> Option<u8>
        ensures { result ≡ byte_at self.now address }
    {
        let (at, run) = self.run_from(address)?;
        if at == address {
            run.first().copied()
        } else {
            None
        }
    }

    /// The bytes from the lowest address at or past `from` on that the text gives a byte, up to the
    /// next address that has none or up to FFFFFFFFh, with that lowest address; None where no
    /// address from `from` on has a byte. It takes no memory.
    pub fn run_from(&self, from: u32) -> Option<(u32, &[u8])>
        ensures { MatchOption result (HasNoneFrom self.now from)
            (λ run. IsRunFrom self.now from run.0 run.1.now) }
    {
        let segment = next_segment(&self.segments.list, from)?;
        let at = segment.first.max(from);
        let place = segment.place + (at - segment.first) as usize;
        Some((
            at,
            &self.segments.bytes[place..place + (segment.last - at) as usize + 1],
        ))
    }

    /// The number of addresses that the text gives a byte.
    pub fn count(&self) -> u64
        ensures { result ≡ length self.now }
    {
        self.segments.bytes.len() as u64
    }

    /// The same image, in memory of its own.
    pub fn copied(&self, alloc: Global) -> Result<Image, AllocError>
        ensures same { IfOk result (λ copy. copy ≡ self.now) }
        ensures bytes { IfOk result GivesBytes }
    {
        let mut list = Vec::new(alloc);
        list.extend_from_slice(self.segments.list.as_slice())?;
        let mut bytes = Vec::new(alloc);
        bytes.extend_from_slice(self.segments.bytes.as_slice())?;
        are_bytes(bytes.as_slice());
        Ok(Image {
            segments: Segments { list, bytes },
        })
    }

    /// The addresses that the text gives a byte, with their bytes, in rising order.
    pub fn iter(&self) -> ImageIter<'_>
        ensures pairs { result ≡ self.now }
        ensures rising { IsStrictlyIncreasing (addresses self.now) }
        ensures below { HasNoneFrom self.now (2 ^ 32) }
        ensures few { length self.now < 2 ^ 63 }
        ensures given { (address byte : ℕ) → (byte_at self.now address ≡ Some byte)
            ↔ Contains self.now (address, byte) }
    {
        ImageIter {
            segments: self.segments.list.as_slice(),
            bytes: self.segments.bytes.as_slice(),
            done: 0,
        }
    }
}

/// An iterator over the addresses of an image with their bytes. Clauses see it as the list of what
/// it has left.
#[derive(Drop)]
pub struct ImageIter<'a> {
    segments: &'a [Segment],
    bytes: &'a [u8],
    /// How many bytes of the first of these segments were given.
    done: u32,
}

impl<'a> Model for ImageIter<'a> {
    ghost use Rattle.std.specs.Prelude.{drop};
    ghost use Rattle.nor_hex.specs.Image.{Pairs};
    ghost use Rattle.nor_hex.specs.Segments.{pairs_of, HasLeft};

    ghost Value = { Pairs };

    ghost view = { λ s. drop s.done (pairs_of s.segments.now s.bytes.now) };

    ghost invariant = { λ s. HasLeft s.segments.now s.bytes.now s.done };
}

impl<'a> Iterator for ImageIter<'a> {
    type Item = (u32, u8);

    ghost next_gives = { YieldsFirst (λ rest. rest) };

    ghost remaining = { item_count (λ rest. rest) };

    fn next(&mut self) -> Option<(u32, u8)> {
        let (segment, later) = self.segments.split_first()?;
        let address = segment.first + self.done;
        let byte = self.bytes[segment.place + self.done as usize];
        if address == segment.last {
            self.segments = later;
            self.done = 0;
        } else {
            self.done += 1;
        }
        Some((address, byte))
    }
}

/// Called for what it promises: the bytes of a slice are bytes.
fn are_bytes(_bytes: &[u8])
    ensures { (k : ℕ) → slice_index _bytes.now k < 256 }
{}
