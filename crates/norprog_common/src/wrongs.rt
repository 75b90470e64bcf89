//! The numbers by which it is reported how a chip goes wrong.

ghost use Rattle.std.specs.Prelude.{◌≡◌};
ghost use Rattle.norprog_common.specs.Wrongs.{wrong_number};

use nor_base::Wrong;

/// The number by which a script's wrong is reported: 1 Ignored, 2 Unknown, 3 Raised, 4 OutOfRange,
/// 5 Mismatch, 6 PollNever, 7 NotIdleAtEnd, 8 NotErased.
pub fn wrong_number(wrong: Wrong) -> u8
    ensures { result ≡ wrong_number wrong }
{
    wrong as u8
}
