//! How bytes of a chip are read.

ghost use Rattle.std.specs.Prelude.{◌≡◌};
ghost use Rattle.nor_reader.specs.Switched.{enter_of, leave_of};

use nor_base::Switch;

/// The instruction that a chip is read by.
#[derive(Clone, Copy)]
pub enum ReadBy {
    /// 5Ah: the SFDP tables, by three address bytes and eight dummy clocks.
    Tables,
    /// 03h: the content, by the address bytes of the mode; in three-byte mode what ends past 2^24
    /// by 13h.
    Content {
        /// Whether the chip is in four-byte address mode.
        mode4: bool,
    },
    /// 13h: the content, by four address bytes in either mode.
    FourBytes,
    /// 03h: the content, by four address bytes in four-byte mode, which is entered before the
    /// reading and left after it.
    Entered {
        /// How it is entered.
        enter: Switch,
        /// How it is left.
        leave: Switch,
    },
}

/// How four-byte mode is entered for a reading.
pub(crate) fn enter_of(by: ReadBy) -> Switch
    ensures { result ≡ enter_of by }
{
    match by {
        ReadBy::Entered { enter, leave: _ } => enter,
        ReadBy::Tables | ReadBy::Content { .. } | ReadBy::FourBytes => Switch::Absent,
    }
}

/// How it is left after it.
pub(crate) fn leave_of(by: ReadBy) -> Switch
    ensures { result ≡ leave_of by }
{
    match by {
        ReadBy::Entered { enter: _, leave } => leave,
        ReadBy::Tables | ReadBy::Content { .. } | ReadBy::FourBytes => Switch::Absent,
    }
}
