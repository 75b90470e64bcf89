//! The symbols of bytes.

ghost use Rattle.std.specs.Prelude.{◌≡◌, ◌*◌, length, flat_map};
ghost use Rattle.nor_base.specs.Clocks.{bits, nibbles};

use std::simd::prelude::*;

/// The symbols that send four bytes on one lane: eight a byte, that of bit 7 first.
pub fn spread1_lanes(bytes: &[u8; 4]) -> u8x32
    ensures { result ≡ flat_map bits bytes.now }
{
    let [a, b, c, d] = *bytes;
    let each = u8x32::from_array([
        a, a, a, a, a, a, a, a, b, b, b, b, b, b, b, b, c, c, c, c, c, c, c, c, d, d, d, d, d, d,
        d, d,
    ]);
    let shifts = u8x32::from_array([
        7, 6, 5, 4, 3, 2, 1, 0, 7, 6, 5, 4, 3, 2, 1, 0, 7, 6, 5, 4, 3, 2, 1, 0, 7, 6, 5, 4, 3, 2,
        1, 0,
    ]);
    ((each >> shifts) & u8x32::splat(1)) + u8x32::splat(b'0')
}

/// The symbols that send sixteen bytes on four lanes: two a byte, that of the high nibble first.
pub fn spread4_lanes(bytes: &[u8; 16]) -> u8x32
    ensures { result ≡ flat_map nibbles bytes.now }
{
    let [
        b0,
        b1,
        b2,
        b3,
        b4,
        b5,
        b6,
        b7,
        b8,
        b9,
        b10,
        b11,
        b12,
        b13,
        b14,
        b15,
    ] = *bytes;
    let each = u8x32::from_array([
        b0, b0, b1, b1, b2, b2, b3, b3, b4, b4, b5, b5, b6, b6, b7, b7, b8, b8, b9, b9, b10, b10,
        b11, b11, b12, b12, b13, b13, b14, b14, b15, b15,
    ]);
    let shifts = u8x32::from_array([
        4, 0, 4, 0, 4, 0, 4, 0, 4, 0, 4, 0, 4, 0, 4, 0, 4, 0, 4, 0, 4, 0, 4, 0, 4, 0, 4, 0, 4, 0,
        4, 0,
    ]);
    ((each >> shifts) & u8x32::splat(15)) + u8x32::splat(b'a')
}

/// Writes the symbols that send bytes on one lane: eight a byte, that of bit 7 first.
pub fn spread1(bytes: &[u8], clocks: &mut [u8])
    requires { length clocks.old ≡ 8 * length bytes.now }
    ensures { clocks.new ≡ flat_map bits bytes.now }
{
    let (chunks, rest) = bytes.as_chunks::<4>();
    let (front, back) = clocks.split_at_mut(32 * chunks.len());
    for (j, chunk) in chunks.iter().enumerate() {
        front[32 * j..32 * j + 32].copy_from_slice(&spread1_lanes(chunk).to_array());
    }
    spread1_rest(rest, back);
}

/// Writes the symbols that send bytes on four lanes: two a byte, that of the high nibble first.
pub fn spread4(bytes: &[u8], clocks: &mut [u8])
    requires { length clocks.old ≡ 2 * length bytes.now }
    ensures { clocks.new ≡ flat_map nibbles bytes.now }
{
    let (chunks, rest) = bytes.as_chunks::<16>();
    let (front, back) = clocks.split_at_mut(32 * chunks.len());
    for (j, chunk) in chunks.iter().enumerate() {
        front[32 * j..32 * j + 32].copy_from_slice(&spread4_lanes(chunk).to_array());
    }
    spread4_rest(rest, back);
}

fn spread1_rest(bytes: &[u8], clocks: &mut [u8])
    requires { length clocks.old ≡ 8 * length bytes.now }
    ensures { clocks.new ≡ flat_map bits bytes.now }
{
    for (j, byte) in bytes.iter().enumerate() {
        clocks[8 * j..8 * j + 8].copy_from_slice(&symbols_of(*byte));
    }
}

fn spread4_rest(bytes: &[u8], clocks: &mut [u8])
    requires { length clocks.old ≡ 2 * length bytes.now }
    ensures { clocks.new ≡ flat_map nibbles bytes.now }
{
    for (j, byte) in bytes.iter().enumerate() {
        clocks[2 * j..2 * j + 2].copy_from_slice(&nibbles_of(*byte));
    }
}

fn symbols_of(byte: u8) -> [u8; 8]
    ensures { result ≡ bits byte }
{
    [
        b'0' + byte / 128 % 2,
        b'0' + byte / 64 % 2,
        b'0' + byte / 32 % 2,
        b'0' + byte / 16 % 2,
        b'0' + byte / 8 % 2,
        b'0' + byte / 4 % 2,
        b'0' + byte / 2 % 2,
        b'0' + byte % 2,
    ]
}

#[tactic(auto, unfolding(nor_base::specs::Clocks::nibbles))]
fn nibbles_of(byte: u8) -> [u8; 2]
    ensures { result ≡ nibbles byte }
{
    [b'a' + byte / 16, b'a' + byte % 16]
}
