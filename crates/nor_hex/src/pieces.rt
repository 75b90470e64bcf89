//! The bytes that records gave so far.

ghost use Rattle.std.specs.Prelude.{◌≡◌, ◌≢◌, ℕ, ◌+◌, ◌-◌, ◌^◌, ◌<◌, ◌≤◌, length, take, drop, OnOk};
ghost use Rattle.std.specs.Prelude.{IfOk, IfErr, MatchOption};
ghost use Rattle.std.specs.Ordering.{nat_cmp};
ghost use Rattle.std.specs.BTreeMap.{get};
ghost use Rattle.nor_hex.specs.declared.fault.HexFault.TheVariants.{Conflict, Memory};
ghost use Rattle.nor_hex.specs.Pieces.{Gives, IsPieces, IsFree, IsNext, HasNoNext, AddsRun};
ghost use Rattle.nor_hex.specs.Pieces.{ClashesRun, DiffersIn, Opens};

use crate::fault::HexFault;
use std::alloc::Allocator;
use std::collections::BTreeMap;

/// A run of bytes at rising addresses: its lowest address, and the place of the first of them.
#[derive(Clone, Copy)]
pub(crate) struct Piece {
    pub(crate) first: u32,
    pub(crate) place: u32,
}

/// Bytes with their addresses: pieces that do not overlap, each under its highest address, over
/// the bytes in the order in which they came.
#[derive(Drop)]
pub(crate) struct Pieces<A: Allocator> {
    pub(crate) by_last: BTreeMap<u32, Piece, A>,
    pub(crate) bytes: Vec<u8, A>,
}

/// Adds bytes from an address on. `Conflict` names the line.
pub(crate) fn add_run<A: Allocator + Clone>(
    pieces: &mut Pieces<A>,
    address: u32,
    bytes: &[u8],
    line: u64,
) -> Result<(), HexFault>
    requires fits { address + length bytes.now ≤ 2 ^ 32 }
    requires pieces { IsPieces (get nat_cmp pieces.old.by_last) pieces.old.bytes.items }
    ensures pieces { OnOk result
        (IsPieces (get nat_cmp pieces.new.by_last) pieces.new.bytes.items) }
    ensures added { OnOk result
        (AddsRun (Gives (get nat_cmp pieces.old.by_last) pieces.old.bytes.items)
        (Gives (get nat_cmp pieces.new.by_last) pieces.new.bytes.items) address bytes.now) }
    ensures line { IfErr result (λ fault. fault ≢ Memory → fault ≡ Conflict line) }
    ensures clash { IfErr result (λ fault. fault ≢ Memory
        → ClashesRun (Gives (get nat_cmp pieces.old.by_last) pieces.old.bytes.items) address
        bytes.now) }
{
    let mut done = 0;
    while done < bytes.len() {
        done += add_part(pieces, address + done as u32, &bytes[done..], line)?;
    }
    Ok(())
}

/// Adds the first of the bytes, as many as lie in one piece or before the next one, and returns how
/// many these are.
fn add_part<A: Allocator + Clone>(
    pieces: &mut Pieces<A>,
    address: u32,
    bytes: &[u8],
    line: u64,
) -> Result<usize, HexFault>
    requires part { (0 < length bytes.now)
        × (address + length bytes.now ≤ 2 ^ 32)
        × IsPieces (get nat_cmp pieces.old.by_last) pieces.old.bytes.items }
    ensures count { IfOk result (λ count. 0 < count)
        × IfOk result (λ count. count ≤ length bytes.now) }
    ensures pieces { OnOk result
        (IsPieces (get nat_cmp pieces.new.by_last) pieces.new.bytes.items) }
    ensures added { IfOk result
        (λ count. AddsRun (Gives (get nat_cmp pieces.old.by_last) pieces.old.bytes.items)
        (Gives (get nat_cmp pieces.new.by_last) pieces.new.bytes.items) address
        (take count bytes.now)) }
    ensures line { IfErr result (λ fault. fault ≢ Memory → fault ≡ Conflict line) }
    ensures clash { IfErr result (λ fault. fault ≢ Memory
        → ClashesRun (Gives (get nat_cmp pieces.old.by_last) pieces.old.bytes.items) address
        bytes.now) }
{
    let count = match free_from(pieces, address, bytes.len()) {
        Ok(count) => count,
        Err((last, piece)) => {
            return repeat_part(pieces.bytes.as_slice(), last, piece, address, bytes, line);
        }
    };
    // There are 2^32 addresses, so where one is free a place fits.
    let Ok(place) = u32::try_from(pieces.bytes.len()) else {
        return Err(HexFault::Memory);
    };
    let piece = open_piece(&mut pieces.by_last, place, address);
    pieces.bytes.extend_from_slice(&bytes[..count])?;
    pieces.by_last.insert(address + (count - 1) as u32, piece)?;
    Ok(count)
}

/// How many addresses from one on are free, at most `len`; else the piece that has the first of
/// them, with its highest address.
fn free_from<A: Allocator>(
    pieces: &Pieces<A>,
    address: u32,
    len: usize,
) -> Result<usize, (u32, Piece)>
    requires some { 0 < len }
    requires pieces { IsPieces (get nat_cmp pieces.now.by_last) pieces.now.bytes.items }
    ensures count { IfOk result (λ count. 0 < count)
        × IfOk result (λ count. count ≤ len) }
    ensures free { IfOk result (λ count. IsFree (get nat_cmp pieces.now.by_last) address count) }
    ensures next { IfErr result
        (λ found. IsNext (get nat_cmp pieces.now.by_last) address found.0 found.1) }
    ensures from { IfErr result (λ found. found.1.first ≤ address) }
{
    match next_piece(&pieces.by_last, address) {
        None => Ok(len),
        Some((last, piece)) if piece.first <= address => Err((last, piece)),
        Some((_, piece)) => Ok(len.min((piece.first - address) as usize)),
    }
}

/// The first piece that ends at an address or past it, with its highest address.
pub(crate) fn next_piece<A: Allocator>(
    by_last: &BTreeMap<u32, Piece, A>,
    address: u32,
) -> Option<(u32, Piece)>
    ensures { MatchOption result (HasNoNext (get nat_cmp by_last.now) address)
        (λ found. IsNext (get nat_cmp by_last.now) address found.0 found.1) }
{
    let (last, piece) = by_last.range(address..).next()?;
    Some((*last, *piece))
}

/// How many of the bytes lie in a piece, if they are the same there.
fn repeat_part(
    given: &[u8],
    last: u32,
    piece: Piece,
    address: u32,
    bytes: &[u8],
    line: u64,
) -> Result<usize, HexFault>
    requires some { 0 < length bytes.now }
    requires inside { (piece.first ≤ address)
        × (address ≤ last)
        × (piece.place + (last - piece.first) < length given.now) }
    ensures some { IfOk result (λ count. 0 < count) }
    ensures fits { IfOk result (λ count. (count ≤ length bytes.now)
        × (address + count ≤ last + 1)) }
    ensures same { IfOk result
        (λ count. take count (drop (piece.place + (address - piece.first)) given.now)
        ≡ take count bytes.now) }
    ensures clash { IfErr result (λ fault. (fault ≡ Conflict line)
        × DiffersIn (drop (piece.place + (address - piece.first)) given.now) bytes.now
        (last + 1 - address)) }
{
    let count = bytes.len().min((last - address) as usize + 1);
    let place = piece.place as usize + (address - piece.first) as usize;
    if &given[place..place + count] == &bytes[..count] {
        Ok(count)
    } else {
        Err(HexFault::Conflict { line })
    }
}

/// Takes out the piece that ends right before the address, if its bytes are the last ones; else
/// makes an empty one.
fn open_piece<A: Allocator + Clone>(
    by_last: &mut BTreeMap<u32, Piece, A>,
    place: u32,
    address: u32,
) -> Piece
    requires { (last : ℕ) (piece : Piece) → get nat_cmp by_last.old last ≡ Some piece
        → piece.first ≤ last }
    ensures { Opens (get nat_cmp by_last.old) (get nat_cmp by_last.new) place address result }
{
    if let Some(last) = address.checked_sub(1)
        && let Some(piece) = by_last.get(&last).copied()
        && u64::from(piece.place) + u64::from(address - piece.first) == u64::from(place)
    {
        let _ = by_last.remove(&last);
        return piece;
    }
    Piece {
        first: address,
        place,
    }
}
