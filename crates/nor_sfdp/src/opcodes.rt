//! The opcodes of a chip's own instructions, no two of which may be the same.

ghost use Rattle.std.specs.Prelude.{◌≡◌, ◌+◌, ◌<◌, ◌≤◌, ◌++◌, ◌==◌};
ghost use Rattle.std.specs.List.{list_any};
ghost use Rattle.nor_base.specs.Accepted.{are_distinct, fixed_opcodes};
ghost use Rattle.nor_sfdp.specs.Opcodes.{is_allowed, kind_opcodes, own_opcodes};
ghost use Rattle.arrayvec.specs.ArrayVec.{array_vec_len};

use arrayvec::ArrayVec;
use nor_base::{Erase, QuadRead, Region};

/// The opcodes that mean the same on every chip.
const FIXED: [u8; 12] = [
    0x06, 0x04, 0x05, 0xB7, 0xE9, 0x02, 0x12, 0x32, 0x34, 0x03, 0x13, 0x6C,
];

/// The fixed opcodes, that of the quad read, and those of the erase kinds that some region allows.
/// It takes no memory.
pub fn own_opcodes(
    read: Option<QuadRead>,
    kinds: &[Option<Erase>; 4],
    regions: &[Region],
) -> ArrayVec<u8, 21>
    ensures { result.items ≡ own_opcodes read kinds.now regions.now }
{
    let mut opcodes = fixed_opcodes();
    if let Some(read) = read {
        opcodes.push(read.op);
    }
    push_live(&mut opcodes, kinds[0], is_allowed(regions, 1));
    push_live(&mut opcodes, kinds[1], is_allowed(regions, 2));
    push_live(&mut opcodes, kinds[2], is_allowed(regions, 3));
    push_live(&mut opcodes, kinds[3], is_allowed(regions, 4));
    opcodes
}

/// The fixed opcodes.
fn fixed_opcodes() -> ArrayVec<u8, 21>
    ensures { result.items ≡ fixed_opcodes }
{
    let mut opcodes = ArrayVec::new();
    for opcode in FIXED {
        opcodes.push(opcode);
    }
    opcodes
}

/// Whether some region allows a kind.
fn is_allowed(regions: &[Region], kind: u8) -> bool
    ensures { result ≡ is_allowed regions.now kind }
{
    regions.iter().any(|region| region.allows(kind))
}

/// Appends the opcodes of a kind, where it is allowed.
fn push_live(opcodes: &mut ArrayVec<u8, 21>, slot: Option<Erase>, allowed: bool)
    requires { array_vec_len opcodes.old + 2 ≤ 21 }
    ensures items { opcodes.new.items ≡ opcodes.old.items ++ kind_opcodes slot allowed }
    ensures few { array_vec_len opcodes.new ≤ array_vec_len opcodes.old + 2 }
{
    let Some(erase) = slot else {
        return;
    };
    if !allowed {
        return;
    }
    opcodes.push(erase.op);
    if let Some(op4) = erase.op4 {
        opcodes.push(op4);
    }
}

/// Whether no opcode stands twice. It takes no memory.
pub fn are_distinct(opcodes: &[u8]) -> bool
    ensures { result ≡ are_distinct opcodes.now }
{
    let mut rest = opcodes;
    while let [first, others @ ..] = rest {
        if has_opcode(others, *first) {
            return false;
        }
        rest = others;
    }
    true
}

/// Whether an opcode is among others.
pub(crate) fn has_opcode(opcodes: &[u8], opcode: u8) -> bool
    ensures { result ≡ list_any (λ other. opcode == other) opcodes.now }
{
    opcodes.iter().any(|other| opcode == *other)
}
