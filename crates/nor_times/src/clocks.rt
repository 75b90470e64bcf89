//! The clocks of instructions.

ghost use Rattle.std.specs.Prelude.{◌≡◌, ◌≤◌, ◌*◌, ◌+◌};
ghost use Rattle.nor_times.specs.Bus.{change_clocks, head_clocks, mode_clocks, program_clocks};
ghost use Rattle.nor_times.specs.Bus.{read_clocks, switch_clocks};

use nor_base::{Meaning, Start, Strategy, Switch};
use nor_geometry::{legacy_width, takes_dedicated};

/// An opcode with four address bytes.
const HEAD4: u64 = 40;

/// A change of the array: the write enable, the instruction, one poll.
pub(crate) fn change_clocks(clocks: u64) -> u64
    requires { clocks ≤ 40000000000 }
    ensures { result ≡ change_clocks clocks }
{
    8 + (clocks + 16)
}

/// An opcode with the address bytes that the strategy has for an address.
pub(crate) fn head_clocks(strategy: Strategy, address: u32) -> u64
    ensures value { result ≡ head_clocks strategy address }
    ensures small { result ≤ 40 }
{
    if takes_dedicated(strategy, address) {
        HEAD4
    } else {
        8 + 8 * u64::from(legacy_width(strategy))
    }
}

/// A program instruction of so many bytes.
pub(crate) fn program_clocks(
    meaning: &Meaning,
    start: &Start,
    strategy: Strategy,
    at: u32,
    count: u32,
) -> u64
    ensures value { result ≡ program_clocks meaning.now start.now strategy at count }
    ensures small { result ≤ 40 + 8 * count }
{
    let count = u64::from(count);
    if start.quad && meaning.quad4 {
        return HEAD4 + 2 * count;
    }
    if start.quad && meaning.quad3 && !takes_dedicated(strategy, at) {
        return head_clocks(strategy, at) + 2 * count;
    }
    head_clocks(strategy, at) + 8 * count
}

/// A read of so many bytes.
pub(crate) fn read_clocks(
    meaning: &Meaning,
    start: &Start,
    strategy: Strategy,
    at: u32,
    count: u32,
) -> u64
    ensures value { result ≡ read_clocks meaning.now start.now strategy at count }
    ensures small { result ≤ 295 + 8 * count }
{
    let count = u64::from(count);
    if let (true, Some(quad)) = (start.quad, meaning.quad_read) {
        let data = u64::from(quad.dummies) + 2 * count;
        if meaning.quad_read4 {
            return HEAD4 + data;
        }
        if !takes_dedicated(strategy, at) {
            return head_clocks(strategy, at) + data;
        }
    }
    head_clocks(strategy, at) + 8 * count
}

/// Entering and leaving the mode that the strategy needs.
pub(crate) fn mode_clocks(meaning: &Meaning, strategy: Strategy) -> u64
    ensures value { result ≡ mode_clocks meaning.now strategy }
    ensures small { result ≤ 48 }
{
    match strategy {
        Strategy::S4 => switch_clocks(meaning.enter) + switch_clocks(meaning.leave),
        Strategy::S1 | Strategy::S2 | Strategy::S3 | Strategy::S5 => 0,
    }
}

/// A change of the address mode; one that asks for a write enable has a write disable behind it.
fn switch_clocks(switch: Switch) -> u64
    ensures value { result ≡ switch_clocks switch }
    ensures small { result ≤ 24 }
{
    match switch {
        Switch::Absent => 0,
        Switch::Plain => 8,
        Switch::Latched => 24,
    }
}
