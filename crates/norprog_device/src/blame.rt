//! Which exchange with a device ended the work on it, and how.

ghost use Rattle.std.specs.Prelude.{◌≡◌};
ghost use Rattle.norprog_device.specs.Blame.{fault_of_greeting, fault_of_mismatch, is_cut};

use crate::fault::DeviceFault;
use nor_reader::Mismatch;
use nor_serprog::{Fault, GreetFault};

/// How the exchange ended early for which a device can't be used. None where each came whole, and
/// the device speaks another version or offers no SPI operation.
pub fn fault_of_greeting(why: DeviceFault) -> Option<Fault>
    ensures { result ≡ fault_of_greeting why }
{
    match why {
        DeviceFault::Greet(GreetFault::Command { why: fault, at: _ }) => Some(fault),
        DeviceFault::Greet(GreetFault::Version | GreetFault::NoOperation) => None,
        DeviceFault::Line(fault) => Some(fault),
    }
}

/// How the exchange ended early for which bytes of the chip aren't found to be those that are
/// wanted. None where the chip gives another byte.
pub fn fault_of_mismatch(why: Mismatch) -> Option<Fault>
    ensures { result ≡ fault_of_mismatch why }
{
    match why {
        Mismatch::Exchange(fault) => Some(fault),
        Mismatch::Differs(_) => None,
    }
}

/// Whether the work ended in the middle of a request, since the writer failed. The device would
/// take what is sent next as the rest of that request, so nothing more may be.
pub fn is_cut(fault: Option<Fault>) -> bool
    ensures { result ≡ is_cut fault }
{
    matches!(fault, Some(Fault::Write))
}
