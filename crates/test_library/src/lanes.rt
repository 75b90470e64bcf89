//! What has to change, at each place, in each lane and at each length.

use crate::same::{holds, same};
use nor_base::Meaning;
use nor_erase::{dirty, first_due, rises, rises_lanes};
use std::alloc::AllocError;
use std::process::Abort;
use std::simd::prelude::*;
use test_samples::{erased_only_chip, small_chip};

/// Of bytes that all hold A5h, one is to become another: whether a bit rises, whether a byte that
/// isn't FFh changes, and the first byte that is due without and with the profile.
fn is_told(
    rt: &impl Abort,
    have: &mut [u8],
    want: &mut [u8],
    place: usize,
    (old, new, (rising, kept)): (u8, u8, (bool, bool)),
) {
    put(have, place, old);
    put(want, place, new);
    let fits = have.len() == want.len() && place < 100;
    holds(rt, "a place", fits);
    same(rt, "rises", rises(have, want), rising);
    same(rt, "dirty", dirty(have, want), kept);
    let here = 0x1000 + place as u32;
    is_due(rt, &small_chip(), have, want, rising.then_some(here));
    is_due(rt, &erased_only_chip(), have, want, kept.then_some(here));
}

/// All bytes hold A5h but one.
fn put(bytes: &mut [u8], place: usize, byte: u8) {
    bytes.fill(0xA5);
    if let Some(at) = bytes.get_mut(place) {
        *at = byte;
    }
}

/// The first byte that is due, from 1000h on.
fn is_due(rt: &impl Abort, chip: &Meaning, have: &[u8], want: &[u8], first: Option<u32>) {
    holds(rt, "bytes", have.len() == want.len() && have.len() <= 4096);
    holds(rt, "a chip", chip.size >= 8192);
    same(rt, "due", first_due(chip, 0x1000, have, want), first);
}

/// A byte, what it is to become, and whether a bit rises and a byte that isn't FFh changes then.
static CHANGES: [(u8, u8, (bool, bool)); 5] = [
    (0xF0, 0xF1, (true, true)),
    (0xF0, 0x0F, (true, true)),
    (0xF1, 0xF0, (false, true)),
    (0xFF, 0x00, (false, false)),
    (0x5A, 0x5A, (false, false)),
];

#[test]
fn at_each_place(rt: HostRuntime) -> Result<(), AllocError> {
    let mut have = vec![in rt.alloc(); 0u8; 100]?;
    let mut want = vec![in rt.alloc(); 0u8; 100]?;
    for place in 0..100 {
        for change in &CHANGES {
            is_told(&rt, &mut have, &mut want, place, *change);
        }
    }
    Ok(())
}

#[test]
fn in_each_lane(rt: HostRuntime) {
    let all = [0xA5u8; 32];
    for place in 0..32 {
        let mut have = all;
        let mut want = all;
        have[place] = 0xF0;
        want[place] = 0xF1;
        let (old, new) = (u8x32::from_array(have), u8x32::from_array(want));
        holds(&rt, "a bit rises", rises_lanes(old, new));
        holds(&rt, "a bit falls", !rises_lanes(new, old));
        holds(&rt, "bytes stay", !rises_lanes(old, old));
    }
}

/// [`rises`], byte by byte.
fn rises_plainly(have: &[u8], want: &[u8]) -> bool {
    have.iter().zip(want).any(|(old, new)| *old & *new != *new)
}

/// [`dirty`], byte by byte.
fn dirty_plainly(have: &[u8], want: &[u8]) -> bool {
    have.iter()
        .zip(want)
        .any(|(old, new)| *old != *new && *old != 0xFF)
}

/// Of so many bytes that hold F0h the last is to become another; what lies past them isn't looked
/// at.
fn agrees(rt: &impl Abort, want: &mut [u8], new: u8, rising: bool, kept: bool) {
    let len = want.len();
    let have = HAVE.get(..len).unwrap_or(&[]);
    holds(rt, "a length", 0 < len && have.len() == len);
    want.fill(0xF0);
    want[len - 1] = new;
    same(rt, "rises", rises(have, want), rising);
    same(rt, "rises plainly", rises_plainly(have, want), rising);
    same(rt, "dirty", dirty(have, want), kept);
    same(rt, "dirty plainly", dirty_plainly(have, want), kept);
}

/// More bytes than are looked at.
static HAVE: [u8; 101] = [0xF0; 101];

#[test]
fn at_each_length(rt: HostRuntime) -> Result<(), AllocError> {
    let none: [u8; 0] = [];
    holds(
        &rt,
        "no bytes",
        !rises(&none, &none) && !dirty(&none, &none),
    );
    let mut bytes = vec![in rt.alloc(); 0x0Fu8; 101]?;
    for len in 1..101 {
        holds(&rt, "room", len <= bytes.len());
        let (want, _) = bytes.as_mut_slice().split_at_mut(len);
        agrees(&rt, want, 0xF0, false, false);
        agrees(&rt, want, 0xF1, true, true);
        agrees(&rt, want, 0xE0, false, true);
    }
    Ok(())
}
