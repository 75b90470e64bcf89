//! By which opcodes and how many address bytes a chip is driven.

ghost use Rattle.std.specs.Prelude.{◌≡◌, ◌*◌, ◌&&◌, nat_lt, is_some};
ghost use Rattle.std.specs.List.{list_any};
ghost use Rattle.nor_base.specs.Parameters.{block_size};
ghost use Rattle.nor_base.specs.Strategies.{strategy, are_dedicated, is_dedicated, erases_in};
ghost use Rattle.nor_base.specs.Strategies.{is_least};
ghost use Rattle.nor_base.specs.Instructions.{dedicated, is_there};
ghost use Rattle.nor_geometry.specs.Takes.{takes, is_least_dedicated};

use crate::widths::FAR;
use nor_base::{Meaning, Region, Start, Strategy, Switch};

/// The numbers of the erase kinds.
pub(crate) const KINDS: [u8; 4] = [1, 2, 3, 4];

/// The first strategy that applies to a chip that begins so: `S1` begins in four-byte mode; `S2`
/// needs three address bytes; `S3` has opcodes with four address bytes for all that it needs
/// (FF84h); `S4` enters and leaves four-byte mode (FF00h DWORD 16); `S5` has none of these.
#[tactic(auto, unfolding(nor_base::specs::Strategies::strategy))]
pub fn strategy(meaning: &Meaning, start: &Start) -> Strategy
    ensures { result ≡ strategy meaning.now start.now }
{
    if meaning.begins4(start) {
        Strategy::S1
    } else if meaning.size <= FAR {
        Strategy::S2
    } else if meaning.program4 && meaning.read4 && are_dedicated(meaning) {
        Strategy::S3
    } else if is_there(meaning.enter) && is_there(meaning.leave) {
        Strategy::S4
    } else {
        Strategy::S5
    }
}

/// Whether a mode can be switched.
fn is_there(switch: Switch) -> bool
    ensures { result ≡ is_there switch }
{
    switch != Switch::Absent
}

/// Whether each region that reaches past 2^24 has dedicated opcodes enough.
fn are_dedicated(meaning: &Meaning) -> bool
    ensures { result ≡ are_dedicated meaning.now 0 meaning.now.regions }
{
    meaning.acceptance();
    let mut end = 0u64;
    for region in meaning.regions.as_slice() {
        end += u64::from(region.size);
        if end > u64::from(FAR) && !is_dedicated(meaning, region) {
            return false;
        }
    }
    true
}

/// Whether some kind of the region's least size has an opcode with four address bytes, or the
/// region has no kind.
fn is_dedicated(meaning: &Meaning, region: &Region) -> bool
    ensures { result ≡ is_dedicated meaning.now region.now }
{
    !some_erases(meaning, region, &KINDS) || some_is_dedicated(meaning, region, &KINDS)
}

/// Whether one of some kinds is one of the region's.
fn some_erases(meaning: &Meaning, region: &Region, kinds: &[u8]) -> bool
    ensures { result ≡ list_any (erases_in meaning.now region.now) kinds.now }
{
    kinds.iter().any(|kind| erases_in(meaning, region, *kind))
}

/// Whether one of some kinds is of the region's least size and has an opcode with four address
/// bytes.
fn some_is_dedicated(meaning: &Meaning, region: &Region, kinds: &[u8]) -> bool
    ensures { result ≡ list_any (is_least_dedicated meaning.now region.now) kinds.now }
{
    kinds
        .iter()
        .any(|kind| is_least_dedicated(meaning, region, *kind))
}

/// Whether the kind is of the region's least size and has an opcode with four address bytes.
fn is_least_dedicated(meaning: &Meaning, region: &Region, kind: u8) -> bool
    ensures { result ≡ is_least_dedicated meaning.now region.now kind }
{
    erases_in(meaning, region, kind) && is_least(meaning, region, kind) && has_op4(meaning, kind)
}

/// Whether the kind is present and the region allows it.
fn erases_in(meaning: &Meaning, region: &Region, kind: u8) -> bool
    ensures { result ≡ erases_in meaning.now region.now kind }
{
    meaning.erase_kind(kind).is_some() && region.allows(kind)
}

/// Whether no kind of the region is smaller.
fn is_least(meaning: &Meaning, region: &Region, kind: u8) -> bool
    ensures { result ≡ is_least meaning.now region.now kind }
{
    !some_is_smaller(meaning, region, &KINDS, meaning.block_size(kind))
}

/// Whether one of some kinds is one of the region's and its blocks have fewer bytes.
fn some_is_smaller(meaning: &Meaning, region: &Region, kinds: &[u8], size: u32) -> bool
    ensures { result ≡ list_any (λ kind. erases_in meaning.now region.now kind
        && nat_lt (block_size meaning.now kind) size) kinds.now }
{
    kinds
        .iter()
        .any(|kind| is_smaller(meaning, region, *kind, size))
}

/// Whether the kind is one of the region's and its blocks have fewer bytes.
fn is_smaller(meaning: &Meaning, region: &Region, kind: u8, size: u32) -> bool
    ensures { result ≡ (erases_in meaning.now region.now kind
        && nat_lt (block_size meaning.now kind) size) }
{
    erases_in(meaning, region, kind) && meaning.block_size(kind) < size
}

/// Whether the kind has an opcode that takes four address bytes in each mode.
fn has_op4(meaning: &Meaning, kind: u8) -> bool
    ensures { result ≡ is_some (dedicated meaning.now kind) }
{
    match meaning.erase_kind(kind) {
        Some(erase) => erase.op4.is_some(),
        None => false,
    }
}

/// Whether the strategy has an erase for an address by a kind with or without an opcode of four
/// address bytes.
pub(crate) fn takes(strategy: Strategy, has_op4: bool, start: u32) -> bool
    ensures { result ≡ takes strategy has_op4 start }
{
    match strategy {
        Strategy::S1 | Strategy::S2 | Strategy::S4 => true,
        Strategy::S3 => start < FAR || has_op4,
        Strategy::S5 => start < FAR,
    }
}
