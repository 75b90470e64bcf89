//! The kernels of nor_frames beside plain loops.

use crate::same::holds;
use nor_frames::{spread1, spread1_lanes, spread4, spread4_lanes};
use std::alloc::{AllocError, Global};
use std::process::Abort;

/// Whether these are the symbols of bytes on one lane, by a plain loop.
fn are_plain1(bytes: &[u8], symbols: &[u8]) -> bool {
    for (at, symbol) in symbols.iter().enumerate() {
        let byte = bytes.get(at / 8).copied().unwrap_or(0);
        let bit = 128 >> (at % 8);
        if *symbol != if byte & bit == 0 { b'0' } else { b'1' } {
            return false;
        }
    }
    symbols.len() / 8 == bytes.len()
}

/// Whether these are the symbols of bytes on four lanes, by a plain loop.
fn are_plain4(bytes: &[u8], symbols: &[u8]) -> bool {
    for (at, symbol) in symbols.iter().enumerate() {
        let byte = bytes.get(at / 2).copied().unwrap_or(0);
        let nibble = if at % 2 == 0 { byte >> 4 } else { byte & 15 };
        if *symbol != b"abcdefghijklmnop"[usize::from(nibble % 16)] {
            return false;
        }
    }
    symbols.len() / 2 == bytes.len()
}

/// Bytes of each value in turn, so many of them.
fn some_bytes(alloc: Global, len: usize) -> Result<Vec<u8>, AllocError> {
    let mut bytes = Vec::new(alloc);
    for i in 0..len {
        bytes.push((i % 256) as u8)?;
    }
    Ok(bytes)
}

/// Bytes are spread as by the plain loops, with this room.
fn are_spread(rt: &impl Abort, room: &mut [u8], bytes: &[u8]) {
    room.fill(b'?');
    let most = room.len() / 8;
    holds(rt, "room", bytes.len() <= most);
    let (single, _) = room.split_at_mut(bytes.len() * 8);
    spread1(bytes, single);
    holds(rt, "on one lane", are_plain1(bytes, single));
    single.fill(b'?');
    let (quad, _) = single.split_at_mut(bytes.len() * 2);
    spread4(bytes, quad);
    holds(rt, "on four lanes", are_plain4(bytes, quad));
}

/// Each length from 0 to 100, and each byte.
#[test]
fn spread_as_by_plain_loops(rt: HostRuntime) -> Result<(), AllocError> {
    let bytes = some_bytes(rt.alloc(), 356)?;
    let mut room = vec![in rt.alloc(); b'?'; 8 * 356]?;
    for len in 0..101 {
        if len + 256 <= bytes.len() {
            are_spread(&rt, &mut room, &bytes[256 - len..256]);
            are_spread(&rt, &mut room, &bytes[..len]);
        }
    }
    are_spread(&rt, &mut room, &bytes);
    Ok(())
}

/// Each byte in each place of a kernel.
#[test]
fn kernels_as_plain_loops(rt: HostRuntime) {
    for byte in 0..=255u8 {
        let four = [byte, !byte, byte ^ 0x55, byte];
        let found = spread1_lanes(&four).to_array();
        holds(&rt, "four bytes", are_plain1(&four, &found));
        let mut sixteen = [byte; 16];
        sixteen[1] = !byte;
        sixteen[15] = byte ^ 0x5A;
        let found = spread4_lanes(&sixteen).to_array();
        holds(&rt, "sixteen bytes", are_plain4(&sixteen, &found));
    }
}
