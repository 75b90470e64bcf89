//! How much of a chip is read at once.

ghost use Rattle.std.specs.Prelude.{◌≡◌};
ghost use Rattle.nor_reader.specs.AtOnce.{at_once};

use nor_serprog::Limits;

/// As many bytes a read of the content takes at most, so that it shows how far it is.
const MOST: u32 = 1 << 16;

/// A device's limits, of which a read takes 64 KiB at most.
pub fn for_reading(limits: &Limits) -> Limits
    ensures asked { result.asked ≡ at_once limits.now }
{
    Limits {
        sent: limits.sent,
        asked: limits.asked.min(MOST),
        ahead: limits.ahead,
        pins: limits.pins,
    }
}
