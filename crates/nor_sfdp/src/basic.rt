//! The basic flash parameter table FF00h.

ghost use Rattle.std.specs.Prelude.{◌≡◌, ◌≢◌, ◌<◌, ◌≤◌, ◌%◌, ◌^◌, IfOk, IfSome};
ghost use Rattle.nor_base.specs.Accepted.{IsPowerOfTwo};
ghost use Rattle.nor_base.specs.declared.meaning.Switch.TheVariants.{Absent};
ghost use Rattle.nor_base.specs.declared.meaning.Width.TheVariants.{Both};
ghost use Rattle.nor_sfdp.specs.Basic.{size_in_bytes, size_of, width_of, page_of, switch_of};
ghost use Rattle.nor_sfdp.specs.Basic.{quad_read_of};

use crate::fault::SfdpFault;
use crate::fields::{bits, is_set};
use nor_base::{QuadRead, Switch, Width};

/// What a basic table tells of the page.
#[derive(Clone, Copy)]
pub(crate) struct Page {
    /// Bytes; the least number that it may be where it is open.
    pub size: u32,
    /// No more is known than that it has `size` bytes or more.
    pub open_page: bool,
}

/// The chip's size in bytes, by DWORD 2.
#[tactic(auto, unfolding(crate::specs::Basic::size_of))]
pub(crate) fn size(dword2: u32) -> Result<u32, SfdpFault>
    ensures size { result ≡ size_of dword2 }
    ensures low { IfOk result (λ size. 4096 ≤ size) }
    ensures high { IfOk result (λ size. size ≤ 2 ^ 28) }
    ensures whole { IfOk result (λ size. size % 4096 ≡ 0) }
{
    let value = dword2 % (1 << 31);
    if !is_set(dword2, 31) {
        return size_in_bytes(u64::from(value) + 1);
    }
    if value > 31 {
        return Err(SfdpFault::Density);
    }
    size_in_bytes(1 << value)
}

/// The bytes of a density in bits.
fn size_in_bytes(density: u64) -> Result<u32, SfdpFault>
    ensures size { result ≡ size_in_bytes density }
    ensures low { IfOk result (λ size. 4096 ≤ size) }
    ensures high { IfOk result (λ size. size ≤ 2 ^ 28) }
    ensures whole { IfOk result (λ size. size % 4096 ≡ 0) }
{
    let size = density / 8;
    if density % 8 != 0 || size == 0 || size % 4096 != 0 || size > 1 << 28 {
        return Err(SfdpFault::Density);
    }
    Ok(size as u32)
}

/// How many address bytes the legacy opcodes take, by DWORDs 1 and 16.
#[tactic(auto, unfolding(crate::specs::Basic::width_of))]
pub(crate) fn width(dword1: u32, dword16: u32) -> Result<Width, SfdpFault>
    ensures { result ≡ width_of dword1 dword16 }
{
    let address_bytes = bits(dword1, 18, 17);
    if address_bytes == 3 {
        return Err(SfdpFault::AddressBytes);
    }
    if address_bytes == 2 || is_set(dword16, 30) {
        return Ok(Width::Four);
    }
    Ok(if address_bytes == 1 {
        Width::Both
    } else {
        Width::Three
    })
}

/// The page, by DWORD 11 or, in a table of fewer than 16 DWORDs, by DWORD 1.
#[tactic(auto, unfolding(crate::specs::Basic::page_of))]
pub(crate) fn page_in(dwords: usize, dword1: u32, dword11: u32) -> Result<Page, SfdpFault>
    ensures page { result ≡ page_of dwords dword1 dword11 }
    ensures power { IfOk result (λ page. IsPowerOfTwo 4 12 page.size) }
{
    if dwords < 16 {
        if !is_set(dword1, 2) {
            return Err(SfdpFault::PageSize);
        }
        return Ok(Page {
            size: 64,
            open_page: true,
        });
    }
    let exponent = bits(dword11, 7, 4);
    if exponent < 4 || exponent > 12 {
        return Err(SfdpFault::PageSize);
    }
    Ok(Page {
        size: 1 << exponent,
        open_page: false,
    })
}

/// How four-byte address mode is entered or left on a chip of a width, by two bits of DWORD 16: by
/// only the opcode, and after a write enable.
#[tactic(auto, unfolding(crate::specs::Basic::switch_of))]
pub(crate) fn switch(width: Width, plain: bool, latched: bool) -> Switch
    ensures switch { result ≡ switch_of width plain latched }
    ensures both { result ≢ Absent → width ≡ Both }
{
    match width {
        Width::Both if plain => Switch::Plain,
        Width::Both if latched => Switch::Latched,
        _ => Switch::Absent,
    }
}

/// The 1-1-4 fast read, by DWORDs 1 and 3.
pub(crate) fn quad_read(dword1: u32, dword3: u32) -> Option<QuadRead>
    ensures read { result ≡ quad_read_of dword1 dword3 }
    ensures op { IfSome result (λ read. read.op < 256) }
    ensures dummies { IfSome result (λ read. read.dummies ≤ 38) }
{
    if !is_set(dword1, 22) {
        return None;
    }
    Some(QuadRead {
        op: bits(dword3, 31, 24) as u8,
        dummies: (bits(dword3, 20, 16) + bits(dword3, 23, 21)) as u8,
    })
}
