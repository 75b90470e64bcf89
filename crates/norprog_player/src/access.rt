//! By which instructions the chip behind a device is read.

ghost use Rattle.std.specs.Prelude.{◌≡◌};
ghost use Rattle.nor_base.specs.Instructions.{is_there};
ghost use Rattle.norprog_player.specs.Access.{access_of};

use nor_base::{Meaning, Start, Switch};

/// By which instructions a chip is read (JESD216: FF00h DWORD 16, FF84h DWORD 1).
#[derive(Clone, Copy, Debug)]
pub enum Access {
    /// By 03h with four address bytes: the chip begins in four-byte mode.
    Four,
    /// By 03h with three, and past 2^24 by 13h with four.
    Dedicated,
    /// By 03h with three, and past 2^24 by 03h with four in four-byte mode, which is entered before
    /// each read and left after it.
    Entered {
        /// How it is entered.
        enter: Switch,
        /// How it is left.
        leave: Switch,
    },
    /// By 03h with three; what lies past 2^24 can't be read.
    Near,
}

/// By which instructions a chip is read that begins so.
pub(crate) fn access_of(meaning: &Meaning, start: &Start) -> Access
    ensures { result ≡ access_of meaning.now start.now }
{
    if meaning.begins4(start) {
        Access::Four
    } else if meaning.read4 {
        Access::Dedicated
    } else if is_there(meaning.enter) && is_there(meaning.leave) {
        Access::Entered {
            enter: meaning.enter,
            leave: meaning.leave,
        }
    } else {
        Access::Near
    }
}

/// Whether a mode can be switched.
fn is_there(switch: Switch) -> bool
    ensures { result ≡ is_there switch }
{
    switch != Switch::Absent
}
