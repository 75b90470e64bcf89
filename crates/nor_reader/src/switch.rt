//! Four-byte address mode, entered and left.

ghost use Rattle.std.specs.Prelude.{[], ◌∷◌};
ghost use Rattle.nor_loop.specs.Reads.{bare, switch_ops};
ghost use Rattle.nor_serprog.specs.Exchange.{CountsReads, CountsWrites};
ghost use Rattle.nor_reader.specs.Switched.{Operates};
ghost use Rattle.nor_base.specs.Wire.{wire};

use nor_base::{ByteIn, ByteOut, Switch};
use nor_serprog::{Fault, operate};

/// Enter four-byte address mode.
pub const ENTER: u8 = 0xB7;

/// Exit four-byte address mode.
pub const LEAVE: u8 = 0xE9;

/// Write enable and write disable.
const ENABLE: u8 = 0x06;

const DISABLE: u8 = 0x04;

/// Has the device send [`ENTER`] or [`LEAVE`] as the chip wants it: between a write enable and a
/// write disable, or without them; nothing where it has no such switch. `Err` is the fault of the
/// first exchange that ended early.
pub fn switch_mode<R: ByteIn, W: ByteOut>(
    from: &mut R,
    to: &mut W,
    switch: Switch,
    opcode: u8,
) -> Result<(), Fault>
    ensures switches { Operates (wire (W.held to.old) (R.ahead from.old))
        (wire (W.held to.new) (R.ahead from.new)) result (switch_ops switch opcode) }
    ensures counts { CountsReads (R.count from.old) (R.count from.new) result
        × CountsWrites (W.count to.old) (W.count to.new) result }
{
    match switch {
        Switch::Absent => Ok(()),
        Switch::Plain => send(from, to, opcode),
        Switch::Latched => {
            send(from, to, ENABLE)?;
            send(from, to, opcode)?;
            send(from, to, DISABLE)
        }
    }
}

/// Has the device send an opcode and nothing else.
fn send<R: ByteIn, W: ByteOut>(from: &mut R, to: &mut W, opcode: u8) -> Result<(), Fault>
    ensures sends { Operates (wire (W.held to.old) (R.ahead from.old))
        (wire (W.held to.new) (R.ahead from.new))
        result (bare opcode ∷ []) }
    ensures counts { CountsReads (R.count from.old) (R.count from.new) result
        × CountsWrites (W.count to.old) (W.count to.new) result }
{
    operate(from, to, &[opcode], &mut [])
}
