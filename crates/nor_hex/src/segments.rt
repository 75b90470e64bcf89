//! Bytes at rising addresses, in segments.

ghost use Rattle.std.specs.Prelude.{◌≡◌, ℕ, List, slice_get, Some, ◌+◌, ◌++◌, ◌<◌, ◌≤◌, length};
ghost use Rattle.std.specs.Prelude.{OnOk, IfOk, IfSome, MatchOption};
ghost use Rattle.std.specs.Ordering.{nat_cmp};
ghost use Rattle.std.specs.BTreeMap.{get};
ghost use Rattle.nor_hex.specs.declared.segments.Segment.{Segment};
ghost use Rattle.nor_hex.specs.Pieces.{Gives, IsPieces, IsNext, HasNoNext};
ghost use Rattle.nor_hex.specs.Segments.{Holds, IsSegments, AreBelow, EndsAt, total, SameBytes};
ghost use Rattle.nor_hex.specs.Segments.{IsOnly, IsJoined, IsNextSegment};

use crate::pieces::{Piece, Pieces, next_piece};
use std::alloc::{AllocError, Allocator};

/// Bytes at gapless addresses: the lowest and the highest of these, and the place of the first
/// byte.
#[derive(Clone, Copy)]
pub(crate) struct Segment {
    pub(crate) first: u32,
    pub(crate) last: u32,
    pub(crate) place: usize,
}

/// Segments of rising addresses with gaps between them, over their bytes in this order.
#[derive(Drop)]
pub(crate) struct Segments<A: Allocator> {
    pub(crate) list: Vec<Segment, A>,
    pub(crate) bytes: Vec<u8, A>,
    ghost right: { IsSegments list.items bytes.items },
    ghost whole: { total list.items ≡ length bytes.items },
}

/// The bytes of pieces, those that touch joined. One piece keeps its bytes where they are.
pub(crate) fn joined<A: Allocator + Clone>(
    alloc: A,
    pieces: Pieces<A>,
) -> Result<Segments<A>, AllocError>
    requires { IsPieces (get nat_cmp pieces.by_last) pieces.bytes.items }
    ensures { IfOk result
        (λ segments. SameBytes (Gives (get nat_cmp pieces.by_last) pieces.bytes.items)
        (Holds segments.list.items segments.bytes.items)) }
{
    if let Some(segment) = only_segment(&pieces) {
        let mut list = Vec::new(alloc);
        list.push(segment)?;
        return Ok(Segments {
            list,
            bytes: pieces.bytes,
        });
    }
    joined_anew(alloc, &pieces)
}

/// The same, where each byte is copied to its place.
fn joined_anew<A: Allocator + Clone>(
    alloc: A,
    pieces: &Pieces<A>,
) -> Result<Segments<A>, AllocError>
    requires { IsPieces (get nat_cmp pieces.now.by_last) pieces.now.bytes.items }
    ensures { IfOk result
        (λ segments. SameBytes (Gives (get nat_cmp pieces.now.by_last) pieces.now.bytes.items)
        (Holds segments.list.items segments.bytes.items)) }
{
    let mut list = Vec::new(alloc.clone()?);
    let mut bytes = Vec::with_capacity(alloc, pieces.bytes.len())?;
    let mut from = 0u64;
    while let Some((last, piece)) = piece_from(pieces, from) {
        let place = piece.place as usize;
        let run = &pieces.bytes[place..place + (last - piece.first) as usize + 1];
        add_segment(&mut list, piece.first, last, bytes.len())?;
        bytes.extend_from_slice(run)?;
        from = u64::from(last) + 1;
    }
    Ok(Segments { list, bytes })
}

/// The first piece that ends at an address or past it, where the address may be 2^32.
fn piece_from<A: Allocator>(pieces: &Pieces<A>, from: u64) -> Option<(u32, Piece)>
    requires { IsPieces (get nat_cmp pieces.now.by_last) pieces.now.bytes.items }
    ensures { MatchOption result (HasNoNext (get nat_cmp pieces.now.by_last) from)
        (λ found. IsNext (get nat_cmp pieces.now.by_last) from found.0 found.1) }
{
    next_piece(&pieces.by_last, u32::try_from(from).ok()?)
}

/// The one piece as a segment, where it has all bytes.
fn only_segment<A: Allocator>(pieces: &Pieces<A>) -> Option<Segment>
    requires { IsPieces (get nat_cmp pieces.now.by_last) pieces.now.bytes.items }
    ensures { IfSome result
        (λ segment. IsOnly (get nat_cmp pieces.now.by_last) (length pieces.now.bytes.items)
        segment) }
{
    let (last, piece) = piece_from(pieces, 0)?;
    if piece.place == 0
        && (last - piece.first) as usize + 1 == pieces.bytes.len()
        && piece_from(pieces, u64::from(last) + 1).is_none()
    {
        return Some(Segment {
            first: piece.first,
            last,
            place: 0,
        });
    }
    None
}

/// Adds a segment past all others: to the last one if it begins right after it, else as one of its
/// own. The place is where the bytes of the others end.
fn add_segment<A: Allocator + Clone>(
    list: &mut Vec<Segment, A>,
    first: u32,
    last: u32,
    place: usize,
) -> Result<(), AllocError>
    requires rises { first ≤ last }
    requires below { AreBelow first list.old.items }
    requires place { EndsAt list.old.items place }
    ensures { OnOk result ((bytes run : List ℕ) → IsSegments list.old.items bytes
        → length bytes ≡ place
        → first + length run ≡ last + 1
        → IsJoined list.old.items bytes list.new.items first run) }
{
    let fresh = Segment { first, last, place };
    match list.pop() {
        Some(before) if before.last + 1 == first => list.push(Segment { last, ..before })?,
        Some(before) => {
            list.push(before)?;
            list.push(fresh)?;
        }
        None => list.push(fresh)?,
    }
    Ok(())
}

/// The first segment that ends at an address or past it.
pub(crate) fn next_segment(list: &[Segment], from: u32) -> Option<Segment>
    requires { (i : ℕ) (s : Segment) (j : ℕ) (t : Segment) → slice_get list.now i ≡ Some s
        → slice_get list.now j ≡ Some t
        → i ≤ j → s.last ≤ t.last }
    ensures { MatchOption result (AreBelow from list.now)
        (λ segment. IsNextSegment list.now from segment) }
{
    list.get(list.partition_point(|segment| segment.last < from))
        .copied()
}
