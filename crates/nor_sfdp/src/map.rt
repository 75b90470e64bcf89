//! The sector map FF81h.

ghost use Rattle.std.specs.Prelude.{◌≡◌, ◌+◌, ◌*◌, ◌<◌, ◌≤◌, ◌%◌, ◌^◌, [], ◌∷◌, length, Ok, Err};
ghost use Rattle.std.specs.Prelude.{if◌then◌else◌, Some, None, IfOk, IfSome, IsTrue, MatchResult};
ghost use Rattle.std.specs.List.{list_all, AllByRecursion};
ghost use Rattle.std.specs.Option.{option_map};
ghost use Rattle.std.specs.Char.{is_digit};
ghost use Rattle.std.specs.Str.Parse.{digits_value};
ghost use Rattle.nor_base.specs.Accepted.{IsRegion};
ghost use Rattle.nor_sfdp.specs.Bits.{dword_count};
ghost use Rattle.nor_sfdp.specs.SectorMap.{is_command, command_count_of, checked_map, found_or};
ghost use Rattle.nor_sfdp.specs.SectorMap.{first_map_of, wanted_id};
ghost use Rattle.nor_sfdp.specs.SectorMap.{region_of, bytes_of, regions_at, mapped_regions};
ghost use Rattle.nor_sfdp.specs.SectorMap.{regions_of};

use crate::fault::SfdpFault;
use crate::fields::{bits, is_set};
use crate::tables::SfdpTable;
use arrayvec::ArrayVec;
use nor_base::Region;

/// A map, and where its regions stand in the table.
#[derive(Clone, Copy)]
struct SectorMap {
    /// The map's ID.
    id: u32,
    /// The DWORD of the first region.
    first: usize,
    /// The number of regions.
    count: usize,
}

/// Whether a detection command begins at a DWORD.
fn is_command(table: &SfdpTable<'_>, at: usize) -> bool
    ensures value { result ≡ is_command table.now at }
    ensures within { IsTrue result → at ≤ dword_count table.now }
{
    at <= table.len() && !is_set(table.word(at), 1)
}

/// The number of detection commands, which stand first.
fn command_count(table: &SfdpTable<'_>) -> Result<usize, SfdpFault>
    ensures count { result ≡ command_count_of table.now }
    ensures few { IfOk result (λ count. count ≤ 8) }
    ensures within { IfOk result (λ count. 2 * count ≤ dword_count table.now) }
{
    let dwords = table.len();
    let mut count = 0;
    let mut at = 1;
    while is_command(table, at) {
        count += 1;
        at += 2;
    }
    if count > 8 || 2 * count > dwords {
        return Err(SfdpFault::MapForm);
    }
    Ok(count)
}

/// The map that begins at a DWORD, which must be no command and not end past the table.
#[tactic(auto, unfolding(crate::specs::SectorMap::checked_map))]
fn map_at(table: &SfdpTable<'_>, at: usize) -> Result<SectorMap, SfdpFault>
    requires { at ≤ dword_count table.now }
    ensures map { result ≡ checked_map table.now at }
    ensures first { IfOk result (λ m. m.first ≡ at + 1) }
    ensures count { IfOk result (λ m. m.count ≤ 256) }
    ensures within { IfOk result (λ m. m.first + m.count ≤ dword_count table.now + 1) }
{
    let dwords = table.len();
    let head = table.word(at);
    let count = bits(head, 23, 16) as usize + 1;
    if !is_set(head, 1) || dwords < at + count {
        return Err(SfdpFault::MapForm);
    }
    Ok(SectorMap {
        id: bits(head, 15, 8),
        first: at + 1,
        count,
    })
}

/// A map that was found, or else this one where it has the ID.
fn found_or(found: Option<SectorMap>, map: SectorMap, id: u32) -> Option<SectorMap>
    ensures { result ≡ found_or found map id }
{
    match found {
        None if map.id == id => Some(map),
        _ => found,
    }
}

/// The first map with an ID, of those that stand from a DWORD on. Each of them is looked at, up to
/// the one that says it is the last.
fn first_map(table: &SfdpTable<'_>, from: usize, id: u32) -> Result<Option<SectorMap>, SfdpFault>
    requires low { 1 ≤ from }
    requires high { from ≤ dword_count table.now + 1 }
    ensures map { result ≡ first_map_of table.now from id }
    ensures count { IfOk result (λ found. IfSome found (λ m. m.count ≤ 256)) }
    ensures within { IfOk result
        (λ found. IfSome found (λ m. m.first + m.count ≤ dword_count table.now + 1)) }
{
    let dwords = table.len();
    let mut found = None;
    let mut at = from;
    while at <= dwords {
        let map = map_at(table, at)?;
        found = found_or(found, map, id);
        if is_set(table.word(at), 0) {
            return Ok(found);
        }
        at = map.first + map.count;
    }
    Ok(found)
}

/// The ID that configuration bits give, one for each of so many commands.
#[tactic(auto, unfolding(crate::specs::SectorMap::wanted_id))]
fn wanted_id(config: &[u8], commands: usize) -> Result<u32, SfdpFault>
    requires { commands ≤ 8 }
    ensures { result ≡ wanted_id config.now commands }
{
    if config.len() != commands {
        return Err(SfdpFault::ConfigBits);
    }
    number_of(config).ok_or(SfdpFault::ConfigBits)
}

/// The number that binary digits spell, the first the highest, or None where a byte is none.
fn number_of(digits: &[u8]) -> Option<u32>
    requires { length digits.now ≤ 8 }
    ensures { result ≡ (if list_all (λ c. is_digit c 2) digits.now
        then Some (digits_value 2 digits.now) else None) }
{
    let mut number: u32 = 0;
    for digit in digits {
        let Some(bit) = char::from(*digit).to_digit(2) else {
            return None;
        };
        number = number * 2 + bit;
    }
    Some(number)
}

/// The bytes of a region.
fn region_bytes(dword: u32) -> u64
    ensures value { result ≡ (region_of dword).size }
    ensures small { result ≤ 2 ^ 32 }
{
    256 * (u64::from(bits(dword, 31, 8)) + 1)
}

/// The regions of a map, which must add up to the size.
fn regions_at(
    table: &SfdpTable<'_>,
    map: SectorMap,
    size: u32,
) -> Result<ArrayVec<Region, 256>, SfdpFault>
    requires few { map.count ≤ 256 }
    requires within { map.first + map.count ≤ dword_count table.now + 1 }
    ensures regions { let told = regions_at table.now map size in MatchResult result
        (λ v. Ok v.items ≡ told) (λ fault. Err fault ≡ told) }
    ensures few { IfOk result (λ v. length v.items ≤ 256) }
    ensures form { IfOk result (λ v. AllByRecursion IsRegion v.items) }
    ensures fill { IfOk result (λ v. bytes_of v.items ≡ size) }
{
    let _dwords = table.len();
    let size = u64::from(size);
    let mut regions = ArrayVec::new();
    let mut total = 0;
    for k in 0..map.count {
        let dword = table.word(map.first + k);
        let bytes = region_bytes(dword);
        total += bytes;
        if total > size {
            return Err(SfdpFault::MapSize);
        }
        regions.push(Region {
            size: bytes as u32,
            kinds: bits(dword, 3, 0) as u8,
        });
    }
    if total != size {
        return Err(SfdpFault::MapSize);
    }
    Ok(regions)
}

/// The regions of a sector map under configuration bits, which must add up to the size.
fn mapped_regions(
    table: &SfdpTable<'_>,
    config: &[u8],
    size: u32,
) -> Result<ArrayVec<Region, 256>, SfdpFault>
    ensures regions { let told = mapped_regions table.now config.now size in
        MatchResult result (λ v. Ok v.items ≡ told) (λ fault. Err fault ≡ told) }
    ensures few { IfOk result (λ v. length v.items ≤ 256) }
    ensures form { IfOk result (λ v. AllByRecursion IsRegion v.items) }
    ensures fill { IfOk result (λ v. bytes_of v.items ≡ size) }
{
    let commands = command_count(table)?;
    let wanted = wanted_id(config, commands);
    let found = first_map(table, 2 * commands + 1, wanted.unwrap_or(0))?;
    wanted?;
    match found {
        None => Err(SfdpFault::NoMap),
        Some(map) => regions_at(table, map, size),
    }
}

/// The regions of a chip of a size, under configuration bits: those of its sector map or, where it
/// has none, one region that allows all kinds.
pub(crate) fn regions(
    sectors: Option<&SfdpTable<'_>>,
    config: &[u8],
    size: u32,
) -> Result<ArrayVec<Region, 256>, SfdpFault>
    requires whole { size % 256 ≡ 0 }
    requires some { 0 < size }
    ensures regions { let told = regions_of (option_map (λ t. t.now) sectors.entry) config.now size
        in
        MatchResult result (λ v. Ok v.items ≡ told) (λ fault. Err fault ≡ told) }
    ensures few { IfOk result (λ v. length v.items ≤ 256) }
    ensures form { IfOk result (λ v. AllByRecursion IsRegion v.items) }
    ensures fill { IfOk result (λ v. bytes_of v.items ≡ size) }
{
    match sectors {
        Some(table) => mapped_regions(table, config, size),
        None if config.is_empty() => Ok(one_region(size)),
        None => Err(SfdpFault::ConfigBits),
    }
}

/// A region of so many bytes that allows all kinds.
fn one_region(size: u32) -> ArrayVec<Region, 256>
    ensures { result.items ≡ record { size = size; kinds = 15 } ∷ [] }
{
    let mut regions = ArrayVec::new();
    regions.push(Region { size, kinds: 15 });
    regions
}
