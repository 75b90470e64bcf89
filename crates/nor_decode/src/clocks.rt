//! What the lanes do at each of some clocks, only by the symbols: a look at one is a compare or
//! two, since a script has millions of them. A test of all of them has no branch, so that many
//! symbols are looked at at once.

ghost use Rattle.std.specs.Prelude.{◌≡◌, ◌||◌, ◌<◌, ◌≤◌, ◌^◌, length};
ghost use Rattle.std.specs.List.{list_all};
ghost use Rattle.nor_base.specs.Decoding.{is_bit_sent, is_nibble_sent, is_bit_sampled};
ghost use Rattle.nor_base.specs.Decoding.{is_nibble_sampled, is_idle, nibble, bit, number};
ghost use Rattle.nor_base.specs.Run.{samples_some, is_verify};

use std::simd::prelude::*;

/// The clocks of a poll: read status (05h), and one byte sampled.
pub const POLL: &[u8; 16] = b"00000101........";

/// Whether a verify may have these clocks: they sample something, and don't begin with the opcode
/// of a status read (05h).
#[tactic(auto, unfolding(nor_base::specs::Run::is_verify))]
pub fn is_verify(clocks: &[u8]) -> bool
    ensures { result ≡ is_verify clocks.now }
{
    samples_some(clocks) && !clocks.starts_with(b"00000101")
}

/// Whether some clock samples IO1, with IO2 and IO3 high, or all four lanes.
fn samples_some(clocks: &[u8]) -> bool
    ensures { result ≡ samples_some clocks.now }
{
    clocks.iter().any(|symbol| samples(*symbol))
}

/// Whether a clock samples a bit or a nibble.
fn samples(symbol: u8) -> bool
    ensures { result ≡ is_bit_sampled symbol || is_nibble_sampled symbol }
{
    is_bit_sampled(symbol) | is_nibble_sampled(symbol)
}

/// Whether each clock sends a bit on IO0.
pub(crate) fn are_bits_sent(clocks: &[u8]) -> bool
    ensures { result ≡ list_all is_bit_sent clocks.now }
{
    let mut all = true;
    for symbol in clocks {
        all &= is_bit_sent(*symbol);
    }
    all
}

/// Whether each clock sends a nibble on all four lanes.
pub(crate) fn are_nibbles_sent(clocks: &[u8]) -> bool
    ensures { result ≡ list_all is_nibble_sent clocks.now }
{
    let mut all = true;
    for symbol in clocks {
        all &= is_nibble_sent(*symbol);
    }
    all
}

/// Whether each clock samples a bit from IO1.
pub(crate) fn are_bits_sampled(clocks: &[u8]) -> bool
    ensures { result ≡ list_all is_bit_sampled clocks.now }
{
    let mut all = true;
    for symbol in clocks {
        all &= is_bit_sampled(*symbol);
    }
    all
}

/// Whether each clock samples a nibble from all four lanes.
pub(crate) fn are_nibbles_sampled(clocks: &[u8]) -> bool
    ensures { result ≡ list_all is_nibble_sampled clocks.now }
{
    let mut all = true;
    for symbol in clocks {
        all &= is_nibble_sampled(*symbol);
    }
    all
}

/// Whether no lane is driven or sampled at each clock.
pub(crate) fn are_idle(clocks: &[u8]) -> bool
    ensures { result ≡ list_all is_idle clocks.now }
{
    let mut all = true;
    for symbol in clocks {
        all &= is_idle(*symbol);
    }
    all
}

/// IO0, IO2 and IO3 are driven, and no lane is sampled.
#[tactic(auto, unfolding(nor_base::specs::Decoding::is_bit_sent))]
fn is_bit_sent(symbol: u8) -> bool
    ensures { result ≡ is_bit_sent symbol }
{
    (symbol == b'0') | (symbol == b'1')
}

/// All four lanes are driven, and none is sampled.
#[tactic(auto, unfolding(nor_base::specs::Decoding::is_nibble_sent))]
fn is_nibble_sent(symbol: u8) -> bool
    ensures { result ≡ is_nibble_sent symbol }
{
    (symbol >= b'a') & (symbol <= b'p')
}

/// IO2 and IO3 are driven, and IO1 is sampled.
#[tactic(auto, unfolding(nor_base::specs::Decoding::is_bit_sampled))]
fn is_bit_sampled(symbol: u8) -> bool
    ensures { result ≡ is_bit_sampled symbol }
{
    symbol == b'.'
}

/// No lane is driven, and all four are sampled.
#[tactic(auto, unfolding(nor_base::specs::Decoding::is_nibble_sampled))]
fn is_nibble_sampled(symbol: u8) -> bool
    ensures { result ≡ is_nibble_sampled symbol }
{
    symbol == b'='
}

/// No lane is driven, and none is sampled.
#[tactic(auto, unfolding(nor_base::specs::Decoding::is_idle))]
fn is_idle(symbol: u8) -> bool
    ensures { result ≡ is_idle symbol }
{
    symbol == b'-'
}

/// The lanes that a clock drives high, as a mask: of a nibble its value.
pub(crate) fn level(symbol: u8) -> u8
    ensures level { result ≡ nibble symbol }
    ensures lanes { result < 16 }
{
    match symbol {
        b'a'..=b'p' => symbol - b'a',
        b'0' | b'.' => 12,
        b'1' => 13,
        _ => 0,
    }
}

/// The level of IO0.
// no branch between the two bits, which come in no order that a processor can learn
#[tactic(auto, unfolding(nor_base::specs::Decoding::bit))]
fn bit(symbol: u8) -> u8
    ensures bit { result ≡ bit symbol }
    ensures small { result < 2 }
{
    match symbol {
        b'a'..=b'p' => (symbol - b'a') % 2,
        _ => u8::from(symbol == b'1'),
    }
}

/// The number that at most 32 bits on IO0 stand for, the first the highest.
pub(crate) fn number(bits: &[u8]) -> u32
    requires { length bits.now ≤ 32 }
    ensures value { result ≡ number bits.now }
    ensures fits { result < 2 ^ length bits.now }
{
    let mut sum = 0;
    for symbol in bits {
        sum = sum * 2 + u32::from(bit(*symbol));
    }
    sum
}

/// The byte that eight bits on IO0 stand for, the first the highest.
pub(crate) fn byte(bits: &[u8]) -> u8
    requires { length bits.now ≡ 8 }
    ensures { result ≡ number bits.now }
{
    let symbols = u8x8::from_array([
        bits[7], bits[6], bits[5], bits[4], bits[3], bits[2], bits[1], bits[0],
    ]);
    // the nibbles with their lowest bit high are every other letter from `b` on
    let odd = (symbols - u8x8::splat(b'b')) & u8x8::splat(0xF1);
    let high = symbols.simd_eq(u8x8::splat(b'1')) | odd.simd_eq(u8x8::splat(0));
    high.to_bitmask() as u8
}
