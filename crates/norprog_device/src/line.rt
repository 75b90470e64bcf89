//! What is written of a device that can't be used.

ghost use Rattle.std.specs.Prelude.{◌≡◌};
ghost use Rattle.nor_base.specs.Device.{Counts, Writes};
ghost use Rattle.norprog_common.specs.Told.{Tells, output};
ghost use Rattle.norprog_device.specs.Line.{device_line, device_word, fault_word};

use crate::fault::DeviceFault;
use nor_base::{ByteOut, Failed, put_parts};
use nor_serprog::{Fault, GreetFault};

/// Writes why a device can't be used, and returns the status, 1. Where `err` fails a part of the
/// text is lost, and nothing more is written.
pub fn refuse_device<E: ByteOut>(fault: DeviceFault, err: &mut E) -> u8
    ensures status { result ≡ 1 }
    ensures told { Tells (output E.held E.count err.old err.new) (device_line fault) }
{
    let _ = write_device(fault, err);
    1
}

/// Writes `norprog: device WHY`, where WHY is `read`, `write`, `silent`, `nak`, `differs`,
/// `version`, `operation` or `line`.
///
/// At `Failed` a proper prefix was taken; it comes only from the writer, whose count of failures
/// rose by one.
pub fn write_device<E: ByteOut>(fault: DeviceFault, err: &mut E) -> Result<(), Failed>
    ensures bytes { Writes (E.held err.old) (E.held err.new) result (device_line fault) }
    ensures count { Counts (E.count err.old) (E.count err.new) result }
{
    put_parts(err, &[b"norprog: device ", device_word(fault), b"\n"])
}

/// The word of a device that can't be used.
fn device_word(fault: DeviceFault) -> &'static [u8]
    ensures { result.now ≡ device_word fault }
{
    match fault {
        DeviceFault::Greet(GreetFault::Command { why, at: _ }) => word(why),
        DeviceFault::Greet(GreetFault::Version) => b"version",
        DeviceFault::Greet(GreetFault::NoOperation) => b"operation",
        DeviceFault::Line(Fault::Read) => b"read",
        DeviceFault::Line(Fault::Write) => b"write",
        DeviceFault::Line(_) => b"line",
    }
}

/// The word of an exchange that ended early: `read`, `write`, `silent`, `nak` or `differs`.
pub fn word(fault: Fault) -> &'static [u8]
    ensures { result.now ≡ fault_word fault }
{
    match fault {
        Fault::Read => b"read",
        Fault::Write => b"write",
        Fault::Silent => b"silent",
        Fault::Nak => b"nak",
        Fault::Differs => b"differs",
    }
}
