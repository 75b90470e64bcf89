//! The SFDP bytes (JESD216B) of sample chips.

ghost use Rattle.std.specs.Prelude.{◌≡◌, IfOk};
ghost use Rattle.test_samples.specs.Patches.{patched};

use std::alloc::{AllocError, Global};

/// [`small_chip`](crate::small_chip): header, one parameter header, basic table.
pub const SMALL: [u8; 80] = [
    0x53, 0x46, 0x44, 0x50, 0x06, 0x01, 0x00, 0xFF, 0x00, 0x06, 0x01, 0x10, 0x10, 0x00, 0x00, 0xFF,
    0x05, 0x20, 0x00, 0x00, 0xFF, 0xFF, 0x00, 0x00, 0, 0, 0, 0, 0, 0, 0, 0, 0, 0, 0, 0, 0, 0, 0, 0,
    0, 0, 0, 0, 0x0C, 0x20, 0x00, 0xFF, 0x00, 0xFF, 0x00, 0xFF, 0, 0, 0, 0, 0x80, 0, 0, 0, 0, 0, 0,
    0, 0, 0, 0, 0, 0, 0, 0, 0, 0, 0, 0, 0, 0, 0, 0, 0,
];

/// [`mapped_chip`](crate::mapped_chip): header, two parameter headers, basic table, and from byte
/// 88 on the sector map.
pub const MAPPED: [u8; 100] = [
    0x53, 0x46, 0x44, 0x50, 0x06, 0x01, 0x01, 0xFF, 0x00, 0x06, 0x01, 0x10, 0x18, 0x00, 0x00, 0xFF,
    0x81, 0x00, 0x01, 0x03, 0x58, 0x00, 0x00, 0xFF, 0x05, 0x20, 0x00, 0x00, 0xFF, 0xFF, 0x07, 0x00,
    0, 0, 0, 0, 0, 0, 0, 0, 0, 0, 0, 0, 0, 0, 0, 0, 0, 0, 0, 0, 0x0C, 0x20, 0x10, 0xD8, 0x00, 0xFF,
    0x00, 0xFF, 0, 0, 0, 0, 0x80, 0, 0, 0, 0, 0, 0, 0, 0, 0, 0, 0, 0, 0, 0, 0, 0, 0, 0, 0, 0, 0, 0,
    0, 0x03, 0x00, 0x01, 0x00, 0x01, 0x0F, 0x00, 0x00, 0x02, 0xEF, 0x00, 0x00,
];

/// [`large_chip`](crate::large_chip), and as part W25Q256JV
/// [`w25q256jv_chip`](crate::w25q256jv_chip): header, two parameter headers, basic table, four-byte
/// address instruction table.
pub const LARGE: [u8; 96] = [
    0x53, 0x46, 0x44, 0x50, 0x06, 0x01, 0x01, 0xFF, 0x00, 0x06, 0x01, 0x10, 0x18, 0x00, 0x00, 0xFF,
    0x84, 0x00, 0x01, 0x02, 0x58, 0x00, 0x00, 0xFF, 0x05, 0x20, 0x42, 0x00, 0xFF, 0xFF, 0xFF, 0x0F,
    0x00, 0x00, 0x08, 0x6B, 0, 0, 0, 0, 0, 0, 0, 0, 0, 0, 0, 0, 0, 0, 0, 0, 0x0C, 0x20, 0x0F, 0x52,
    0x10, 0xD8, 0x00, 0xFF, 0, 0, 0, 0, 0x80, 0, 0, 0, 0, 0, 0, 0, 0, 0, 0, 0, 0, 0, 0, 0, 0, 0, 0,
    0, 0x00, 0x40, 0x00, 0x01, 0xD1, 0x0A, 0x00, 0x00, 0x21, 0xFF, 0xDC, 0xFF,
];

/// Over [`LARGE`]: its four-byte address instruction table is there under an unknown ID
/// ([`legacy_chip`](crate::legacy_chip)).
pub const LEGACY: &[(usize, u8)] = &[(16, 0), (23, 0)];

/// Over [`LARGE`]: the same, and its first mode is left and entered after a write enable
/// ([`legacy_latched_chip`](crate::legacy_latched_chip)).
pub const LEGACY_LATCHED: &[(usize, u8)] = &[
    (16, 0),
    (23, 0),
    (84, 0x00),
    (85, 0x80),
    (86, 0x00),
    (87, 0x02),
];

/// Over [`SMALL`]: 68 KiB in blocks of 64 KiB, so that the last 4 KiB lie in no block.
pub const LONE_BLOCK: &[(usize, u8)] = &[
    (20, 0xFF),
    (21, 0x7F),
    (22, 0x08),
    (23, 0),
    (44, 0x10),
    (45, 0xD8),
];

/// Bytes with those at some addresses changed, one change after the other; an address past the
/// bytes changes nothing.
///
/// `AllocError` where memory is refused.
pub fn patched(alloc: Global, bytes: &[u8], patches: &[(usize, u8)]) -> Result<Vec<u8>, AllocError>
    ensures { IfOk result (λ changed. changed.items ≡ patched bytes.now patches.now) }
{
    let mut changed = Vec::from_slice(alloc, bytes)?;
    for (at, byte) in patches {
        if let Some(place) = changed.get_mut(*at) {
            *place = *byte;
        }
    }
    Ok(changed)
}
