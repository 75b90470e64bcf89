//! Which exchange with the device ended the work on its chip, and how.

ghost use Rattle.std.specs.Prelude.{◌≡◌};
ghost use Rattle.norprog_flash.specs.Blame.{fault_in, fault_of_ending, fault_of_stop};

use crate::ending::{Ending, Unflashed};
use nor_serprog::Fault;
use norprog_device::{fault_of_failure, fault_of_greeting};
use norprog_read::fault_of_unlike;

/// How the exchange ended early for which a job isn't done. None where it is done, and where no
/// exchange is the cause.
pub fn fault_in(ended: &Result<Ending, Unflashed>) -> Option<Fault>
    ensures { result ≡ fault_in ended.now }
{
    match ended {
        Ok(ending) => fault_of_ending(*ending),
        Err(why) => fault_of_stop(why),
    }
}

/// The same, where the work was begun.
fn fault_of_ending(ending: Ending) -> Option<Fault>
    ensures { result ≡ fault_of_ending ending }
{
    match ending {
        Ending::Failed { why, step: _ } => fault_of_failure(why),
        Ending::Planned | Ending::Compared(_) | Ending::Done { .. } => None,
    }
}

/// The same, where it wasn't.
fn fault_of_stop(why: &Unflashed) -> Option<Fault>
    ensures { result ≡ fault_of_stop why.now }
{
    match why {
        Unflashed::Device(fault) => fault_of_greeting(*fault),
        Unflashed::Unlike(unlike) => fault_of_unlike(*unlike),
        Unflashed::Refused(_) | Unflashed::Closed(_) => None,
    }
}
