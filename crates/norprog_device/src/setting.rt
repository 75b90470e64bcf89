//! How the terminal of a device is set.

ghost use Rattle.nor_base.specs.Device.{Counts, Writes};
ghost use Rattle.norprog_device.specs.Setting.{stty_command, waiting_front, waiting_line};

use crate::shell::write_word;
use nor_base::{ByteOut, Failed, put_all};

/// Writes the command that sets the terminal of a device as a shell reads it (POSIX, stty): 115200
/// baud, each byte handed on as it comes, and a read that ends after 2 s without one.
///
/// At `Failed` a proper prefix was taken; it comes only from the writer, whose count of failures
/// rose by one.
pub fn write_stty<W: ByteOut>(device: &str, writer: &mut W) -> Result<(), Failed>
    ensures bytes { Writes (W.held writer.old) (W.held writer.new) result
        (stty_command device.now) }
    ensures count { Counts (W.count writer.old) (W.count writer.new) result }
{
    put_all(writer, b"stty -F ")?;
    write_word(device.as_bytes(), writer)?;
    put_all(writer, b" 115200 raw -echo min 0 time 20")
}

/// Writes the line that says which device is waited for, and how its terminal is set.
///
/// At `Failed` a proper prefix was taken; it comes only from the writer, whose count of failures
/// rose by one.
pub fn write_waiting<W: ByteOut>(device: &str, writer: &mut W) -> Result<(), Failed>
    ensures bytes { Writes (W.held writer.old) (W.held writer.new) result
        (waiting_line device.now) }
    ensures count { Counts (W.count writer.old) (W.count writer.new) result }
{
    write_front(device, writer)?;
    write_stty(device, writer)?;
    put_all(writer, b"\n")
}

/// Writes what comes before the command.
fn write_front<W: ByteOut>(device: &str, writer: &mut W) -> Result<(), Failed>
    ensures bytes { Writes (W.held writer.old) (W.held writer.new) result
        (waiting_front device.now) }
    ensures count { Counts (W.count writer.old) (W.count writer.new) result }
{
    put_all(writer, b"waiting for ")?;
    write_word(device.as_bytes(), writer)?;
    put_all(writer, b"; if nothing follows, set it: ")
}
