//! The erase kinds of the basic table, and their dedicated opcodes.

ghost use Rattle.std.specs.Prelude.{◌≡◌, ◌<◌, ◌≤◌, ◌+◌, ◌-◌, ◌*◌, IfOk, IfSome, length};
ghost use Rattle.std.specs.List.{AllByRecursion};
ghost use Rattle.nor_sfdp.specs.Kinds.{dedicated_of, kind_of, kinds_of, IsKind};

use crate::fault::SfdpFault;
use crate::fields::{bits, is_set};
use nor_base::Erase;

/// The dedicated opcode of an erase kind, by the two DWORDs of FF84h.
#[tactic(auto, unfolding(crate::specs::Kinds::dedicated_of))]
fn dedicated(offered: u32, opcodes: u32, kind: u32) -> Option<u8>
    requires low { 1 ≤ kind }
    requires high { kind ≤ 4 }
    ensures opcode { result ≡ dedicated_of offered opcodes kind }
    ensures byte { IfSome result (λ op4. op4 < 256) }
{
    if !is_set(offered, 8 + kind) {
        return None;
    }
    Some(bits(opcodes, 8 * kind - 1, 8 * kind - 8) as u8)
}

/// An erase kind of so many bytes as a power of two; none where the exponent is 0.
#[tactic(auto, unfolding(crate::specs::Kinds::kind_of))]
fn kind(page: u32, exponent: u32, op: u32, op4: Option<u8>) -> Result<Option<Erase>, SfdpFault>
    requires op { op < 256 }
    requires op4 { IfSome op4 (λ opcode. opcode < 256) }
    ensures kind { result ≡ kind_of page exponent op op4 }
    ensures accepted { IfOk result (IsKind page) }
{
    if exponent == 0 {
        return Ok(None);
    }
    if exponent < 8 || exponent > 24 || (1 << exponent) < page {
        return Err(SfdpFault::EraseSize);
    }
    Ok(Some(Erase {
        size: 1 << exponent,
        op: op as u8,
        op4,
    }))
}

/// The four kinds, by DWORDs 8 and 9 of the basic table and the two DWORDs of FF84h.
#[tactic(auto, unfolding(crate::specs::Kinds::kinds_of))]
pub(crate) fn kinds(
    page: u32,
    dword8: u32,
    dword9: u32,
    offered: u32,
    opcodes: u32,
) -> Result<[Option<Erase>; 4], SfdpFault>
    ensures kinds { result ≡ kinds_of page dword8 dword9 offered opcodes }
    ensures four { IfOk result (λ kinds. length kinds ≡ 4) }
    ensures accepted { IfOk result (λ kinds. AllByRecursion (IsKind page) kinds) }
{
    Ok([
        kind(
            page,
            bits(dword8, 7, 0),
            bits(dword8, 15, 8),
            dedicated(offered, opcodes, 1),
        )?,
        kind(
            page,
            bits(dword8, 23, 16),
            bits(dword8, 31, 24),
            dedicated(offered, opcodes, 2),
        )?,
        kind(
            page,
            bits(dword9, 7, 0),
            bits(dword9, 15, 8),
            dedicated(offered, opcodes, 3),
        )?,
        kind(
            page,
            bits(dword9, 23, 16),
            bits(dword9, 31, 24),
            dedicated(offered, opcodes, 4),
        )?,
    ])
}
