//! Chips for tests: what SFDP says of a few sample chips, each with its literal parameters as
//! contract, and their SFDP bytes. [`rows`] has what programs that do rows of data have in common,
//! [`words`] and [`meanings`] what their rows have.
#![tactic(auto)]

mod canned;
pub mod meanings;
pub mod rows;
pub mod sfdp;
pub mod texts;
pub mod words;

ghost use Rattle.std.specs.Prelude.{◌≡◌, ◌≤◌, length};
ghost use Rattle.nor_base.specs.Accepted.{IsAccepted};
ghost use Rattle.test_samples.specs.Chips.{small, small_open_page, small_erased_only, plain};
ghost use Rattle.test_samples.specs.Chips.{mapped, large_by, large, large_w25q256jv, large_latched};
ghost use Rattle.test_samples.specs.Chips.{large_legacy, large_legacy_w25q256jv};
ghost use Rattle.test_samples.specs.Chips.{large_legacy_latched, twin};

use arrayvec::ArrayVec;
pub use canned::{Canned, End, Held};
use nor_base::{Erase, Meaning, QuadRead, Region, Switch, Width};

/// What an empty chip of 8 KiB holds.
pub const BLANK: [u8; 8192] = [0xFF; 8192];

/// 8 KiB in sectors of 4 KiB: the chip of `Meaning::uniform(8192)`.
pub fn small_chip() -> Meaning
    ensures { result ≡ small }
{
    Meaning::uniform(8192).unwrap()
}

/// The small chip, of whose page no more is known than that it is 64 bytes or larger.
pub fn open_page_chip() -> Meaning
    ensures { result ≡ small_open_page }
{
    Meaning {
        page: 64,
        open_page: true,
        ..small_chip()
    }
}

/// The small chip under the profile that programs only erased bytes.
pub fn erased_only_chip() -> Meaning
    ensures { result ≡ small_erased_only }
{
    small_chip().erased_only_set()
}

/// A chip of so many bytes with these erase kinds and this map of regions, and in all else the
/// small chip.
pub fn plain_chip(size: u32, erases: [Option<Erase>; 4], map: &[Region]) -> Meaning
    requires few { length map.now ≤ 256 }
    requires accepted { IsAccepted (plain size erases map.now) }
    ensures { result ≡ plain size erases map.now }
{
    Meaning {
        size,
        erases,
        regions: regions_of(map),
        ..small_chip()
    }
}

/// 64 KiB with a sector map: the first 4 KiB allow kind 1 alone, and the other 60 KiB kind 2, whose
/// blocks of 64 KiB fit nowhere.
pub fn mapped_chip() -> Meaning
    ensures { result ≡ mapped }
{
    let sectors = Erase {
        size: 4096,
        op: 0x20,
        op4: None,
    };
    let blocks = Erase {
        size: 65536,
        op: 0xD8,
        op4: None,
    };
    let map = [
        Region {
            size: 4096,
            kinds: 1,
        },
        Region {
            size: 61440,
            kinds: 2,
        },
    ];
    plain_chip(65536, [Some(sectors), Some(blocks), None, None], &map)
}

/// 32 MiB with all that the four-byte address instruction table (FF84h) offers, and both address
/// modes.
pub fn large_chip() -> Meaning
    ensures { result ≡ large }
{
    large_with(Switch::Plain, true, false)
}

/// The large chip as a W25Q256JV, which takes quad programs by 32h as well.
pub fn w25q256jv_chip() -> Meaning
    ensures { result ≡ large_w25q256jv }
{
    large_with(Switch::Plain, true, true)
}

/// The large chip, whose address mode is switched after a write enable only.
pub fn latched_chip() -> Meaning
    ensures { result ≡ large_latched }
{
    large_with(Switch::Latched, true, false)
}

/// The large chip without its four-byte address instruction table (FF84h).
pub fn legacy_chip() -> Meaning
    ensures { result ≡ large_legacy }
{
    large_with(Switch::Plain, false, false)
}

/// A W25Q256JV without its four-byte address instruction table (FF84h): its quad program is 32h.
pub fn legacy_w25q256jv_chip() -> Meaning
    ensures { result ≡ large_legacy_w25q256jv }
{
    large_with(Switch::Plain, false, true)
}

/// The large chip without its four-byte address instruction table (FF84h), whose address mode is
/// switched after a write enable only.
pub fn legacy_latched_chip() -> Meaning
    ensures { result ≡ large_legacy_latched }
{
    large_with(Switch::Latched, false, false)
}

/// A chip of 32 MiB: how its address mode is switched, whether it has a four-byte address
/// instruction table, and whether it takes quad programs by 32h.
fn large_with(switch: Switch, dedicated: bool, quad3: bool) -> Meaning
    ensures { result ≡ large_by switch dedicated quad3 }
{
    let sectors = Erase {
        size: 4096,
        op: 0x20,
        op4: dedicated.then_some(0x21),
    };
    let half_blocks = Erase {
        size: 32768,
        op: 0x52,
        op4: None,
    };
    let blocks = Erase {
        size: 65536,
        op: 0xD8,
        op4: dedicated.then_some(0xDC),
    };
    Meaning {
        size: 0x200_0000,
        page: 256,
        open_page: false,
        width: Width::Both,
        erases: [Some(sectors), Some(half_blocks), Some(blocks), None],
        regions: regions_of(&[Region {
            size: 0x200_0000,
            kinds: 15,
        }]),
        enter: switch,
        leave: switch,
        quad_read: Some(QuadRead {
            op: 0x6B,
            dummies: 8,
        }),
        read4: dedicated,
        quad_read4: dedicated,
        program4: dedicated,
        quad4: dedicated,
        quad3,
        erased_only: false,
    }
}

/// 32 MiB of two regions whose border is 4 KiB below 2^24; 4 KiB sectors by two kinds and 64 KiB
/// blocks by a third. The blocks have an opcode of four address bytes; the second kind of sectors
/// has one where `dedicated` says so. Four-byte mode can be entered, and left as `leave` says.
pub fn twin_chip(dedicated: bool, leave: Switch) -> Meaning
    ensures { result ≡ twin dedicated leave }
{
    let sectors = Erase {
        size: 4096,
        op: 0x20,
        op4: None,
    };
    let twins = Erase {
        size: 4096,
        op: 0xD7,
        op4: dedicated.then_some(0x21),
    };
    let blocks = Erase {
        size: 65536,
        op: 0xD8,
        op4: Some(0xDC),
    };
    Meaning {
        size: 0x200_0000,
        page: 256,
        open_page: false,
        width: Width::Both,
        erases: [Some(sectors), Some(twins), Some(blocks), None],
        regions: regions_of(&[
            Region {
                size: 0xFF_F000,
                kinds: 15,
            },
            Region {
                size: 0x100_1000,
                kinds: 15,
            },
        ]),
        enter: Switch::Plain,
        leave,
        quad_read: None,
        read4: true,
        quad_read4: false,
        program4: true,
        quad4: false,
        quad3: false,
        erased_only: false,
    }
}

/// The map of these regions.
pub fn regions_of(map: &[Region]) -> ArrayVec<Region, 256>
    requires { length map.now ≤ 256 }
    ensures { result.items ≡ map.now }
{
    ArrayVec::try_from(map).unwrap()
}
