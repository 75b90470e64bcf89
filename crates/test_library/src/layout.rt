//! What a choice has, address by address: its runs in rows of data tell where they begin and end
//! alone.

use crate::readers::owned;
use crate::same::same;
use nor_layout::{Layout, read};
use std::alloc::Global;
use std::process::Abort;
use std::test::Fail;

/// Two regions that overlap.
const TWO: &[u8] = b"0:fff a\n0800:17ff b";

/// Their first and last addresses, those beside them, and the last of all.
static ADDRESSES: [u32; 8] = [0, 0x7FF, 0x800, 0xFFF, 0x1000, 0x17FF, 0x1800, 0xFFFF_FFFF];

const EITHER: [bool; 8] = [true, true, true, true, true, true, false, false];

const FIRST: [bool; 8] = [true, true, true, true, false, false, false, false];

const SECOND: [bool; 8] = [false, false, true, true, true, true, false, false];

/// Names, and which of the addresses their regions have.
static ROWS: [(&str, [bool; 8]); 6] = [
    ("a b", EITHER),
    ("b a", EITHER),
    ("a", FIRST),
    ("b", SECOND),
    ("b b", SECOND),
    ("", [true; 8]),
];

#[test]
fn a_choice_has_the_addresses_of_its_regions(rt: HostRuntime) -> Result<(), Fail> {
    let layout = read(rt.alloc(), TWO)?;
    for (names, want) in &ROWS {
        has_these(&rt, rt.alloc(), &layout, names, want)?;
    }
    Ok(())
}

/// The choice of these names has such addresses.
fn has_these(
    rt: &impl Abort,
    alloc: Global,
    layout: &Layout,
    names: &str,
    want: &[bool],
) -> Result<(), Fail> {
    let owned = owned(alloc, names)?;
    let chosen = layout.choose(alloc, &owned)?;
    for (at, has) in ADDRESSES.iter().zip(want) {
        same(rt, names, chosen.has(*at), *has);
    }
    Ok(())
}
