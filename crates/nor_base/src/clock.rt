//! The symbols of a clock list, and what the four lanes do at each.
//!
//! SPI mode 0, as the W25Q256JV datasheet draws it: the chip samples its inputs at the rising
//! clock. One symbol of a clock list stands for one clock.

ghost use Rattle.std.specs.Prelude.{◌≡◌, ◌≤◌, ◌==◌, length, count_by};
ghost use Rattle.nor_base.specs.Sample.{symbol, sample, clock_at, sampled_count};

/// One clock of a transaction, by its symbol.
#[derive(Clone, Copy)]
pub enum Clock {
    /// `0`: a 0 is sent on IO0; IO2 and IO3 are held high.
    Zero,
    /// `1`: a 1 is sent on IO0; IO2 and IO3 are held high.
    One,
    /// `a`: the nibble 0 is sent on all four lanes, IO3 the highest bit; the next ones go on up to
    /// 15 at `p`.
    Nibble0,
    /// `b`
    Nibble1,
    /// `c`
    Nibble2,
    /// `d`
    Nibble3,
    /// `e`
    Nibble4,
    /// `f`
    Nibble5,
    /// `g`
    Nibble6,
    /// `h`
    Nibble7,
    /// `i`
    Nibble8,
    /// `j`
    Nibble9,
    /// `k`
    Nibble10,
    /// `l`
    Nibble11,
    /// `m`
    Nibble12,
    /// `n`
    Nibble13,
    /// `o`
    Nibble14,
    /// `p`
    Nibble15,
    /// `.`: IO1 is sampled; IO2 and IO3 are held high.
    SampleOne,
    /// `=`: all four lanes are sampled, and none is driven.
    SampleFour,
    /// `-`: no lane is driven or sampled.
    Idle,
}

/// What the lanes do at one clock. Bit l of each mask stands for lane IOl.
#[derive(Clone, Copy)]
pub struct Sample {
    /// The lanes that the host drives.
    pub driven: u8,
    /// Of these, the lanes that it drives high; the bit of a lane that isn't driven is 0.
    pub level: u8,
    /// The lanes that the host samples.
    pub sampled: u8,
}

/// The clock that a symbol stands for; `None` where the byte is no symbol.
pub fn clock_of(byte: u8) -> Option<Clock>
    ensures { result ≡ clock_at byte }
{
    Some(match byte {
        b'0' => Clock::Zero,
        b'1' => Clock::One,
        b'a' => Clock::Nibble0,
        b'b' => Clock::Nibble1,
        b'c' => Clock::Nibble2,
        b'd' => Clock::Nibble3,
        b'e' => Clock::Nibble4,
        b'f' => Clock::Nibble5,
        b'g' => Clock::Nibble6,
        b'h' => Clock::Nibble7,
        b'i' => Clock::Nibble8,
        b'j' => Clock::Nibble9,
        b'k' => Clock::Nibble10,
        b'l' => Clock::Nibble11,
        b'm' => Clock::Nibble12,
        b'n' => Clock::Nibble13,
        b'o' => Clock::Nibble14,
        b'p' => Clock::Nibble15,
        b'.' => Clock::SampleOne,
        b'=' => Clock::SampleFour,
        b'-' => Clock::Idle,
        _ => return None,
    })
}

/// The symbol of a clock.
pub fn symbol_of(clock: Clock) -> u8
    ensures { result ≡ symbol clock }
{
    match clock {
        Clock::Zero => b'0',
        Clock::One => b'1',
        Clock::Nibble0 => b'a',
        Clock::Nibble1 => b'b',
        Clock::Nibble2 => b'c',
        Clock::Nibble3 => b'd',
        Clock::Nibble4 => b'e',
        Clock::Nibble5 => b'f',
        Clock::Nibble6 => b'g',
        Clock::Nibble7 => b'h',
        Clock::Nibble8 => b'i',
        Clock::Nibble9 => b'j',
        Clock::Nibble10 => b'k',
        Clock::Nibble11 => b'l',
        Clock::Nibble12 => b'm',
        Clock::Nibble13 => b'n',
        Clock::Nibble14 => b'o',
        Clock::Nibble15 => b'p',
        Clock::SampleOne => b'.',
        Clock::SampleFour => b'=',
        Clock::Idle => b'-',
    }
}

/// The lanes driven, their levels and the lanes sampled at a clock.
pub fn sample_of(clock: Clock) -> Sample
    ensures { result ≡ sample clock }
{
    match clock {
        Clock::Zero => bit_sample(12),
        Clock::One => bit_sample(13),
        Clock::Nibble0 => nibble_sample(0),
        Clock::Nibble1 => nibble_sample(1),
        Clock::Nibble2 => nibble_sample(2),
        Clock::Nibble3 => nibble_sample(3),
        Clock::Nibble4 => nibble_sample(4),
        Clock::Nibble5 => nibble_sample(5),
        Clock::Nibble6 => nibble_sample(6),
        Clock::Nibble7 => nibble_sample(7),
        Clock::Nibble8 => nibble_sample(8),
        Clock::Nibble9 => nibble_sample(9),
        Clock::Nibble10 => nibble_sample(10),
        Clock::Nibble11 => nibble_sample(11),
        Clock::Nibble12 => nibble_sample(12),
        Clock::Nibble13 => nibble_sample(13),
        Clock::Nibble14 => nibble_sample(14),
        Clock::Nibble15 => nibble_sample(15),
        Clock::SampleOne => Sample {
            driven: 12,
            level: 12,
            sampled: 2,
        },
        Clock::SampleFour => Sample {
            driven: 0,
            level: 0,
            sampled: 15,
        },
        Clock::Idle => Sample {
            driven: 0,
            level: 0,
            sampled: 0,
        },
    }
}

fn bit_sample(level: u8) -> Sample
    ensures { result ≡ record { driven = 13; level = level; sampled = 0 } }
{
    Sample {
        driven: 13,
        level,
        sampled: 0,
    }
}

fn nibble_sample(level: u8) -> Sample
    ensures { result ≡ record { driven = 15; level = level; sampled = 0 } }
{
    Sample {
        driven: 15,
        level,
        sampled: 0,
    }
}

/// How many bytes the clocks sample: a byte for each eight of `.`, and one for each two of `=`,
/// both rounded down.
pub fn sampled(clocks: &[u8]) -> usize
    ensures { result ≡ sampled_count clocks.now }
{
    count_of(clocks, b'.') / 8 + count_of(clocks, b'=') / 2
}

fn count_of(clocks: &[u8], wanted: u8) -> usize
    ensures count { result ≡ count_by (λ byte. byte == wanted) clocks.now }
    ensures within { result ≤ length clocks.now }
{
    clocks.iter().filter(|byte| **byte == wanted).count()
}
