//! What a sheet means.

ghost use Rattle.std.specs.Prelude.{◌≡◌, ◌≤◌, ◌||◌, ◌&&◌, ◌++◌, is_some, length, not, sum_by};
ghost use Rattle.std.specs.List.{list_any};
ghost use Rattle.nor_base.specs.Instructions.{is_there};
ghost use Rattle.nor_base.specs.Accepted.{are_distinct, fixed_opcodes};
ghost use Rattle.nor_sfdp.specs.Opcodes.{live_opcodes};
ghost use Rattle.nor_sfdp.specs.Opcodes.{read_opcodes};
ghost use Rattle.nor_sheet.specs.Meaning.{is_below, is_both, lack_of, meaning_of, offered};
ghost use Rattle.nor_sheet.specs.Meaning.{parameters_by, quad_read_of, switch_of};
ghost use Rattle.nor_sheet.specs.Sheet.{AreSaid};

use crate::fault::Lack;
use crate::said::{Dedicated, Page};
use crate::sheet::Sheet;
use nor_base::{Erase, Meaning, QuadRead, Region, Switch, Width};
use nor_sfdp::{are_distinct, own_opcodes};

/// What a sheet means, or the first thing that it lacks.
pub(crate) fn meaning_of(sheet: Sheet) -> Result<Meaning, Lack>
    requires { AreSaid sheet }
    ensures { result ≡ meaning_of sheet }
{
    let size = sheet.size.ok_or(Lack::Size)?;
    let page = sheet.page.ok_or(Lack::Page)?;
    let width = sheet.width.ok_or(Lack::Address)?;
    if let Some(lack) = lack_of(&sheet, size, page, width) {
        return Err(lack);
    }
    let offered = offered(sheet.dedicated);
    Ok(Meaning {
        size,
        page: page.size,
        open_page: page.open_page,
        width,
        erases: sheet.kinds,
        regions: sheet.regions,
        enter: switch_of(sheet.enter),
        leave: switch_of(sheet.leave),
        quad_read: quad_read_of(sheet.quad_read),
        read4: offered.read4,
        quad_read4: offered.quad_read4,
        program4: offered.program4,
        quad4: offered.quad4,
        quad3: false,
        erased_only: false,
    })
}

/// The first thing that the whole lacks.
fn lack_of(sheet: &Sheet, size: u32, page: Page, width: Width) -> Option<Lack>
    requires four { length sheet.now.kinds ≡ 4 }
    requires few { length sheet.now.regions ≤ 256 }
    ensures { result ≡ lack_of (parameters_by sheet.now size page width) }
{
    if has_below(page.size, &sheet.kinds) {
        return Some(Lack::Kind);
    }
    if bytes_of(sheet.regions.as_slice()) != u64::from(size) {
        return Some(Lack::Regions);
    }
    if has_other_mode(sheet, width) {
        return Some(Lack::Mode);
    }
    if lacks_read(sheet) {
        return Some(Lack::QuadRead);
    }
    if !has_own_opcodes(sheet) {
        return Some(Lack::Opcode);
    }
    None
}

/// Whether the blocks of a kind are smaller than a page.
fn has_below(page: u32, kinds: &[Option<Erase>]) -> bool
    ensures { result ≡ list_any (is_below page) kinds.now }
{
    kinds.iter().any(|slot| is_below(page, *slot))
}

/// Whether the blocks of a kind that is there are smaller than a page.
fn is_below(page: u32, slot: Option<Erase>) -> bool
    ensures { result ≡ is_below page slot }
{
    slot.is_some_and(|erase| erase.size < page)
}

/// The bytes of some regions.
fn bytes_of(regions: &[Region]) -> u64
    requires { length regions.now ≤ 256 }
    ensures { result ≡ sum_by (λ region. region.size) regions.now }
{
    let mut sum = 0;
    for region in regions {
        sum += u64::from(region.size);
    }
    sum
}

/// Whether four-byte address mode is entered or left on a chip that hasn't both modes.
fn has_other_mode(sheet: &Sheet, width: Width) -> bool
    ensures { result
        ≡ ((is_there (switch_of sheet.now.enter) || is_there (switch_of sheet.now.leave))
        && not (is_both width)) }
{
    (is_there(switch_of(sheet.enter)) || is_there(switch_of(sheet.leave))) && !is_both(width)
}

/// Whether a chip has both address modes.
fn is_both(width: Width) -> bool
    ensures { result ≡ is_both width }
{
    matches!(width, Width::Both)
}

/// Whether 6Ch is offered without a quad read.
fn lacks_read(sheet: &Sheet) -> bool
    ensures { result ≡ ((offered sheet.now.dedicated).quad_read4
        && not (is_some (quad_read_of sheet.now.quad_read))) }
{
    offered(sheet.dedicated).quad_read4 && quad_read_of(sheet.quad_read).is_none()
}

/// Whether no opcode has two meanings.
fn has_own_opcodes(sheet: &Sheet) -> bool
    ensures { result ≡ are_distinct (fixed_opcodes
        ++ (read_opcodes (quad_read_of sheet.now.quad_read)
        ++ live_opcodes sheet.now.regions 1 sheet.now.kinds)) }
{
    let read = quad_read_of(sheet.quad_read);
    are_distinct(&own_opcodes(read, &sheet.kinds, sheet.regions.as_slice()))
}

/// Whether a switch isn't absent.
fn is_there(switch: Switch) -> bool
    ensures { result ≡ is_there switch }
{
    !matches!(switch, Switch::Absent)
}

/// How a mode is entered or left: not at all, where nothing is said of it.
fn switch_of(switch: Option<Switch>) -> Switch
    ensures { result ≡ switch_of switch }
{
    switch.unwrap_or(Switch::Absent)
}

/// The quad read: none, where nothing is said of it.
fn quad_read_of(read: Option<Option<QuadRead>>) -> Option<QuadRead>
    ensures { result ≡ quad_read_of read }
{
    read.unwrap_or(None)
}

/// The four-byte address instructions that are offered: none, where nothing is said of them.
fn offered(dedicated: Option<Dedicated>) -> Dedicated
    ensures { result ≡ offered dedicated }
{
    dedicated.unwrap_or(Dedicated {
        read4: false,
        quad_read4: false,
        program4: false,
        quad4: false,
    })
}
