//! Which exchange with a device ended a play on it.

ghost use Rattle.std.specs.Prelude.{◌≡◌};
ghost use Rattle.norprog_player.specs.Blame.{fault_in, fault_of_ending, fault_of_unlike};

use crate::ending::{Ending, Unlike};
use crate::unplayed::Unplayed;
use nor_serprog::Fault;
use norprog_device::{fault_of_failure, fault_of_greeting, fault_of_mismatch};

/// How the exchange ended early that ended a play, or kept it from being one. None where each came
/// whole.
pub fn fault_in(ended: &Result<Ending, Unplayed>) -> Option<Fault>
    ensures { result ≡ fault_in ended.now }
{
    match ended {
        Ok(ending) => fault_of_ending(ending),
        Err(Unplayed::Device(why)) => fault_of_greeting(*why),
        Err(Unplayed::Refused(_)) => None,
    }
}

/// The same of a play that has an ending.
fn fault_of_ending(ending: &Ending) -> Option<Fault>
    ensures { result ≡ fault_of_ending ending.now }
{
    match *ending {
        Ending::Unlike { why } => fault_of_unlike(why),
        Ending::Failed { why, step: _ } => fault_of_failure(why),
        Ending::Done { .. } | Ending::Wrong { .. } | Ending::No { .. } => None,
    }
}

/// The same of what the chip was asked before the steps, and of its comparison.
fn fault_of_unlike(why: Unlike) -> Option<Fault>
    ensures { result ≡ fault_of_unlike why }
{
    match why {
        Unlike::Asking(fault) => Some(fault),
        Unlike::Tables(stop) | Unlike::Content(stop) => fault_of_mismatch(stop),
        Unlike::Busy | Unlike::Status(_) | Unlike::Registers(_) | Unlike::Moved(_) => None,
    }
}
