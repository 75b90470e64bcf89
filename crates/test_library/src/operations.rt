//! Operations, and which clocks are one.

use crate::same::{holds, same};
use nor_base::{FromRead, IntoWrite};
use nor_serprog::{Limits, is_carried, operate};
use std::alloc::Global;
use std::process::Abort;
use test_samples::{Canned, End, Held};

/// Ten bytes out and two in at most.
const LIMITS: Limits = Limits {
    sent: 10,
    asked: 2,
    ahead: 0,
    pins: false,
};

/// Clocks, and whether they are one operation.
static CLOCKS: [(&str, bool); 16] = [
    ("00000110", true),
    ("00000101........", true),
    ("00000011000000000000000000000000................", true),
    (
        "00000011000000000000000000000000........................",
        false,
    ),
    (
        "00000000000000000000000000000000000000000000000000000000000000000000000000000000",
        true,
    ),
    (
        "0000000000000000000000000000000000000000000000000000000000000000000000000000000000000000",
        false,
    ),
    ("", false),
    ("........", false),
    ("0000011", false),
    ("000001100", false),
    ("00000101.......", false),
    ("........00000101", false),
    ("00000101........00000101", false),
    ("00110010000000000000000000000000kf", false),
    ("01101011000000000000000000000000--------==", false),
    ("00000102", false),
];

#[test]
fn clocks_are_carried(rt: HostRuntime) {
    for (clocks, want) in &CLOCKS {
        same(&rt, clocks, is_carried(clocks.as_bytes(), &LIMITS), *want);
    }
}

/// Operates a device that answers so, and gives what it took.
fn operates_on(
    rt: &impl Abort,
    alloc: Global,
    answers: &[u8],
    sent: &[u8],
    got: &mut [u8],
) -> Vec<u8> {
    let mut from = FromRead::new(Canned {
        answers,
        silent: 0,
        end: End::Silent,
    });
    let mut to = IntoWrite::new(Held::new(alloc, 1000));
    let fits = sent.len() < 1 << 24 && got.len() < 1 << 24;
    holds(rt, "lengths", fits && !sent.is_empty());
    holds(rt, "done", operate(&mut from, &mut to, sent, got).is_ok());
    to.into_inner().bytes
}

/// Reading three bytes from 010203h on.
#[test]
fn operates(rt: HostRuntime) {
    let mut got = [0; 3];
    let put = operates_on(
        &rt,
        rt.alloc(),
        b"\x06\xDE\xAD\xBE",
        &[3, 1, 2, 3],
        &mut got,
    );
    holds(&rt, "given", got == [0xDE, 0xAD, 0xBE]);
    let all = b"\x13\x04\x00\x00\x03\x00\x00\x03\x01\x02\x03";
    holds(&rt, "what was put", put.as_slice() == all.as_slice());
}

/// A count above 255 goes out in its second byte too.
#[test]
fn operates_at_length(rt: HostRuntime) {
    let mut got = [0; 515];
    let put = operates_on(&rt, rt.alloc(), &[6; 600], &[0xAA; 258], &mut got);
    let head = b"\x13\x02\x01\x00\x03\x02\x00\xAA";
    holds(&rt, "head", put.as_slice().starts_with(head));
    same(&rt, "length", put.len(), 265);
}
