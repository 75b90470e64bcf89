//! How bytes of a chip differ from those that are wanted.

ghost use Rattle.std.specs.Prelude.{◌≡◌, length, MatchOption};
ghost use Rattle.nor_reader.specs.Compared.{IsFirstDifference};
ghost use Rattle.nor_reader.specs.declared.difference.Mismatch.TheVariants.{Exchange};

use nor_serprog::Fault;

/// At this address the chip behind the device gives another byte than the one that was wanted.
#[derive(Clone, Copy, Debug, PartialEq, Eq)]
pub struct Difference {
    /// The address.
    pub address: u32,
    /// The chip's byte.
    pub chip: u8,
    /// The byte that was wanted.
    pub want: u8,
}

/// Why bytes of the chip aren't found to be those that are wanted.
#[derive(Clone, Copy, Debug, PartialEq, Eq)]
pub enum Mismatch {
    /// The exchange with the device ended early.
    Exchange(Fault),
    /// The chip gives another byte.
    Differs(Difference),
}

impl From<Fault> for Mismatch {
    ghost from_gives = { λ fault mismatch. mismatch ≡ Exchange fault };

    fn from(fault: Fault) -> Mismatch {
        Mismatch::Exchange(fault)
    }
}

/// The first place at which two byte strings of one length differ; None where they are the same.
pub fn first_difference(got: &[u8], want: &[u8]) -> Option<usize>
    requires { length got.now ≡ length want.now }
    ensures { MatchOption result (got.now ≡ want.now) (IsFirstDifference got.now want.now) }
{
    for place in 0..got.len() {
        if got[place] != want[place] {
            return Some(place);
        }
    }
    None
}
