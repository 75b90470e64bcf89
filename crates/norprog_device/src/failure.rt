//! Why a step isn't done.

ghost use Rattle.std.specs.Prelude.{◌≡◌};
ghost use Rattle.norprog_device.specs.FailureBlame.{fault_of_failure, is_sent};

use nor_reader::Difference;
use nor_serprog::Fault;

/// Why a step isn't done.
#[derive(Clone, Copy, PartialEq, Eq, Drop)]
pub enum Failure {
    /// Its exchange ended early.
    Exchange(Fault),
    /// The chip stays busy.
    Busy,
    /// It is no operation of the device.
    Carried,
    /// Memory was refused for the steps that come next.
    Memory,
    /// Of a step that reads the chip's bytes the first that is another.
    Differs(Difference),
    /// Of another step the first byte that is another.
    Gives {
        /// What came.
        chip: u8,
        /// What was wanted.
        want: u8,
    },
}

/// How the exchange ended early for which a step isn't done. None where each came whole, or none
/// was to.
pub fn fault_of_failure(why: Failure) -> Option<Fault>
    ensures { result ≡ fault_of_failure why }
{
    match why {
        Failure::Exchange(fault) => Some(fault),
        Failure::Busy | Failure::Carried | Failure::Memory => None,
        Failure::Differs(_) | Failure::Gives { .. } => None,
    }
}

/// Whether steps were sent where this one isn't done: none at `Carried`, and at `Memory` those
/// before it.
pub fn is_sent(step: u64, why: Failure) -> bool
    ensures { result ≡ is_sent step why }
{
    match why {
        Failure::Carried => false,
        Failure::Memory => step != 0,
        Failure::Exchange(_) | Failure::Busy => true,
        Failure::Differs(_) | Failure::Gives { .. } => true,
    }
}
