//! What is on the wires at a clock.

ghost use Rattle.std.specs.Prelude.{◌≡◌, ◌<◌, ◌≤◌, ◌^◌};
ghost use Rattle.nor_waves.specs.Ticks.{is_set, level_of, lanes_in, bit_expected, lane, levels_at};
ghost use Rattle.nor_waves.specs.Ticks.{clock_ticks, sample_at};

use crate::wires::{Level, Levels};
use nor_base::{Clock, Sample, clock_of, sample_of};

/// What the lanes do at a symbol; at a byte that is none, nothing.
pub(crate) fn sample_at(symbol: u8) -> Sample
    ensures { result ≡ sample_at symbol }
{
    sample_of(clock_of(symbol).unwrap_or(Clock::Idle))
}

/// How many lanes are in a mask.
pub(crate) fn lanes_in(mask: u8) -> u8
    ensures value { result ≡ lanes_in mask }
    ensures few { result ≤ 4 }
{
    mask % 2 + mask / 2 % 2 + mask / 4 % 2 + mask / 8 % 2
}

/// The wires while the clock is low, and while it is high. Before it `place` bits of those expected
/// were sampled.
pub(crate) fn clock_ticks(expect: &[u8], place: u128, sample: Sample) -> [Levels; 2]
    requires { place < 2 ^ 127 }
    ensures { result ≡ clock_ticks expect.now place sample }
{
    [
        levels_at(expect, place, sample, Level::Low),
        levels_at(expect, place, sample, Level::High),
    ]
}

/// The wires at half a clock.
fn levels_at(expect: &[u8], place: u128, sample: Sample, clock: Level) -> Levels
    requires { place < 2 ^ 127 }
    ensures { result ≡ levels_at expect.now place sample clock }
{
    Levels {
        select: Level::Low,
        clock,
        io0: lane(expect, place, sample, 0),
        io1: lane(expect, place, sample, 1),
        io2: lane(expect, place, sample, 2),
        io3: lane(expect, place, sample, 3),
        sampling: if sample.sampled == 0 {
            Level::Low
        } else {
            Level::High
        },
    }
}

/// Lane IOn: as the host drives it; where it is sampled, the bit expected.
fn lane(expect: &[u8], place: u128, sample: Sample, n: u8) -> Level
    requires place { place < 2 ^ 127 }
    requires lane { n < 4 }
    ensures { result ≡ lane expect.now place sample n }
{
    if is_set(sample.driven, n) {
        level_of(sample.level, n)
    } else if is_set(sample.sampled, n) {
        let above = lanes_in(sample.sampled >> (n + 1));
        bit_expected(expect, place + u128::from(above))
    } else {
        Level::Floating
    }
}

/// A bit of the bytes expected, the highest of the first byte first.
fn bit_expected(expect: &[u8], place: u128) -> Level
    ensures { result ≡ bit_expected expect.now place }
{
    let index = place / 8;
    if index < expect.len() as u128 {
        level_of(expect[index as usize], 7 - (place % 8) as u8)
    } else {
        Level::Unknown
    }
}

/// The level of a bit.
fn level_of(mask: u8, n: u8) -> Level
    requires { n < 8 }
    ensures { result ≡ level_of mask n }
{
    if is_set(mask, n) {
        Level::High
    } else {
        Level::Low
    }
}

/// One bit.
fn is_set(mask: u8, n: u8) -> bool
    requires { n < 8 }
    ensures { result ≡ is_set mask n }
{
    (mask >> n) % 2 == 1
}
