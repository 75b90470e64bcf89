//! The seven wires, and the lines of those that change.

ghost use Rattle.std.specs.Prelude.{◌≡◌, ◌≤◌, ◌+◌, ◌++◌};
ghost use Rattle.arrayvec.specs.ArrayVec.{array_vec_len};
ghost use Rattle.nor_waves.specs.Wires.{letter, change, changes};

use arrayvec::ArrayVec;

/// The level of a wire.
#[derive(Clone, Copy)]
pub(crate) enum Level {
    Low,
    High,
    /// Driven, and the script doesn't say how.
    Unknown,
    /// Driven by nobody.
    Floating,
}

/// The levels of the wires at a tick.
#[derive(Clone, Copy)]
pub(crate) struct Levels {
    /// Chip select, low while a transaction lasts.
    pub select: Level,
    pub clock: Level,
    pub io0: Level,
    pub io1: Level,
    pub io2: Level,
    pub io3: Level,
    /// High at a clock at which lanes are sampled.
    pub sampling: Level,
}

impl Levels {
    /// Between transactions.
    pub(crate) const IDLE: Levels = Levels {
        select: Level::High,
        clock: Level::Low,
        io0: Level::Floating,
        io1: Level::Floating,
        io2: Level::Floating,
        io3: Level::Floating,
        sampling: Level::Low,
    };
}

/// The letter of a level: `0`, `1`, `x` or `z`.
fn letter(level: Level) -> u8
    ensures { result ≡ letter level }
{
    match level {
        Level::Low => b'0',
        Level::High => b'1',
        Level::Unknown => b'x',
        Level::Floating => b'z',
    }
}

/// A line for each wire that has another level now: its letter and the wire's character.
pub(crate) fn changes(before: &Levels, now: &Levels) -> ArrayVec<u8, 21>
    ensures { result.items ≡ changes before.now now.now }
{
    let mut lines = ArrayVec::new();
    add_change(&mut lines, b'!', before.select, now.select);
    add_change(&mut lines, b'"', before.clock, now.clock);
    add_change(&mut lines, b'#', before.io0, now.io0);
    add_change(&mut lines, b'$', before.io1, now.io1);
    add_change(&mut lines, b'%', before.io2, now.io2);
    add_change(&mut lines, b'&', before.io3, now.io3);
    add_change(&mut lines, b'\'', before.sampling, now.sampling);
    lines
}

/// Adds the line of a wire, where its level is another.
fn add_change(lines: &mut ArrayVec<u8, 21>, wire: u8, before: Level, now: Level)
    requires { array_vec_len lines.old + 3 ≤ 21 }
    ensures items { lines.new.items ≡ lines.old.items ++ change wire before now }
    ensures few { array_vec_len lines.new ≤ array_vec_len lines.old + 3 }
{
    if letter(before) != letter(now) {
        lines.push(letter(now));
        lines.push(wire);
        lines.push(b'\n');
    }
}
