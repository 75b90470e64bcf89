//! What SFDP bytes say of a chip.

ghost use Rattle.std.specs.Prelude.{◌≡◌, ◌<◌, ◌≤◌, ◌%◌, ◌^◌, ◌==◌, ◌&&◌, false, IfSome, IsSome};
ghost use Rattle.std.specs.Prelude.{IsTrue, is_some, length, not};
ghost use Rattle.std.specs.List.{AllByRecursion, list_any};
ghost use Rattle.nor_base.specs.Accepted.{IsPowerOfTwo, IsRegion};
ghost use Rattle.nor_sfdp.specs.Kinds.{IsKind};
ghost use Rattle.nor_sfdp.specs.SectorMap.{bytes_of};
ghost use Rattle.nor_sfdp.specs.Reading.{completed, density_of, free_read, is_generic, meaning_of};
ghost use Rattle.nor_sfdp.specs.Reading.{basic};

use crate::basic::{Page, page_in, quad_read, size, switch, width};
use crate::fault::SfdpFault;
use crate::fields::is_set;
use crate::kinds::kinds;
use crate::map::regions;
use crate::opcodes::{are_distinct, has_opcode, own_opcodes};
use crate::tables::{Tables, table, tables_in, word_in};
use arrayvec::ArrayVec;
use nor_base::{Erase, Meaning, Part, QuadRead, Region, Width};

/// What a chip's SFDP bytes say of it (JESD216B), under the configuration bits of its sector map, a
/// `0` or `1` for each detection command, and for its part.
///
/// The first fault is reported, in the order of docs/FORMATS.md, section 4; each has its cause at
/// [`SfdpFault`].
#[tactic(auto, unfolding(crate::specs::Reading::meaning_of))]
pub fn read(bytes: &[u8], bits: &str, part: Part) -> Result<Meaning, SfdpFault>
    ensures { result ≡ meaning_of bytes.now bits.now part }
{
    let tables = tables_in(bytes)?;
    let basic = &tables.basic;
    let size = size(basic.word(2))?;
    let width = width(basic.word(1), basic.word(16))?;
    let page = page_in(basic.len(), basic.word(1), basic.word(11))?;
    let offered = word_in(tables.four_byte.as_ref(), 1);
    let opcodes = word_in(tables.four_byte.as_ref(), 2);
    let kinds = kinds(page.size, basic.word(8), basic.word(9), offered, opcodes)?;
    let regions = regions(tables.sectors.as_ref(), bits.as_bytes(), size)?;
    completed(&tables, part, size, width, page, kinds, regions)
}

/// A chip's size in bytes, by DWORD 2 of its basic table (JESD216B), whatever else its SFDP bytes
/// say of it.
///
/// The faults of [`table`]; then `NoBasic`; then `Density`, also where the table has no DWORD 2.
#[tactic(auto, unfolding(crate::specs::Reading::density_of))]
pub fn density(bytes: &[u8]) -> Result<u32, SfdpFault>
    ensures { result ≡ density_of bytes.now }
{
    match table(bytes, 0xFF00)? {
        Some(basic) => size(basic.word(2)),
        None => Err(SfdpFault::NoBasic),
    }
}

/// The meaning, once all but the opcodes is accepted.
#[tactic(auto, unfolding(crate::specs::Reading::completed))]
fn completed(
    tables: &Tables<'_>,
    part: Part,
    size: u32,
    width: Width,
    page: Page,
    kinds: [Option<Erase>; 4],
    regions: ArrayVec<Region, 256>,
) -> Result<Meaning, SfdpFault>
    requires size { (4096 ≤ size)
        × (size ≤ 2 ^ 28)
        × (size % 4096 ≡ 0) }
    requires kinds { IsPowerOfTwo 4 12 page.size
        × AllByRecursion (IsKind page.size) kinds
        × (length kinds ≡ 4) }
    requires regions { (length regions.items ≤ 256)
        × AllByRecursion IsRegion regions.items
        × (bytes_of regions.items ≡ size) }
    ensures { result ≡ completed tables.now part (basic size width page) kinds regions.items }
{
    let taken = own_opcodes(None, &kinds, &regions);
    if !are_distinct(&taken) {
        return Err(SfdpFault::Opcode);
    }
    let basic = &tables.basic;
    let dword16 = basic.word(16);
    let offered = word_in(tables.four_byte.as_ref(), 1);
    let quad_read = free_read(&taken, quad_read(basic.word(1), basic.word(3)));
    Ok(Meaning {
        size,
        page: page.size,
        open_page: page.open_page,
        width,
        erases: kinds,
        regions,
        enter: switch(width, is_set(dword16, 24), is_set(dword16, 25)),
        leave: switch(width, is_set(dword16, 14), is_set(dword16, 15)),
        quad_read,
        read4: is_set(offered, 0),
        quad_read4: is_with_quad_read(quad_read, is_set(offered, 4)),
        program4: is_set(offered, 6),
        quad4: is_set(offered, 7),
        quad3: is_quad3(part),
        erased_only: false,
    })
}

/// Whether a part takes quad programs by 32h.
fn is_quad3(part: Part) -> bool
    ensures { result ≡ not (is_generic part) }
{
    matches!(part, Part::W25q256jv)
}

/// Whether the quad read by 6Ch is offered on a chip that has a quad read.
fn is_with_quad_read(read: Option<QuadRead>, offered: bool) -> bool
    ensures value { result ≡ is_some read && offered }
    ensures some { IsTrue result → IsSome read }
{
    read.is_some() && offered
}

/// A quad read whose opcode isn't taken.
fn free_read(taken: &[u8], read: Option<QuadRead>) -> Option<QuadRead>
    requires op { IfSome read (λ q. q.op < 256) }
    requires dummies { IfSome read (λ q. q.dummies ≤ 38) }
    ensures read { result ≡ free_read taken.now read }
    ensures op { IfSome result (λ q. q.op < 256) }
    ensures dummies { IfSome result (λ q. q.dummies ≤ 38) }
    ensures free { IfSome result (λ q. list_any (λ other. q.op == other) taken.now ≡ false) }
{
    match read {
        Some(read) if !has_opcode(taken, read.op) => Some(read),
        _ => None,
    }
}
