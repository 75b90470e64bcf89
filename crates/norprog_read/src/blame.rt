//! Which exchange with the device ended a reading of its chip, and how.

ghost use Rattle.std.specs.Prelude.{◌≡◌};
ghost use Rattle.norprog_read.specs.Blame.{fault_in, fault_of_stop, fault_of_unlike};

use crate::asked::Reading;
use crate::fault::{Unlike, Unread};
use nor_serprog::Fault;
use norprog_device::fault_of_greeting;

/// How the exchange ended early for which a chip isn't read. None where it is read, and where no
/// exchange is the cause.
pub(crate) fn fault_in(read: &Result<Reading, Unread>) -> Option<Fault>
    ensures { result ≡ fault_in read.now }
{
    match read {
        Ok(_) => None,
        Err(why) => fault_of_stop(why),
    }
}

/// The same, where it isn't read.
fn fault_of_stop(why: &Unread) -> Option<Fault>
    ensures { result ≡ fault_of_stop why.now }
{
    match why {
        Unread::Refused(_) => None,
        Unread::Device(fault) => fault_of_greeting(*fault),
        Unread::Unlike(unlike) => fault_of_unlike(*unlike),
    }
}

/// How the exchange ended early for which a chip didn't say or give what it has to. None where each
/// came whole, or none was to.
pub fn fault_of_unlike(why: Unlike) -> Option<Fault>
    ensures { result ≡ fault_of_unlike why }
{
    match why {
        Unlike::Asking(fault) => Some(fault),
        Unlike::Busy | Unlike::Mode(_) | Unlike::At(_) => None,
        Unlike::Tables(_) | Unlike::NoTables { .. } | Unlike::Id(_) => None,
        Unlike::Size(_) | Unlike::Moved(_) | Unlike::Repeats => None,
        Unlike::Line | Unlike::Unreadable | Unlike::Hidden => None,
    }
}
