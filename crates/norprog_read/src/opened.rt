//! A chip behind a device, from the handshake on.

ghost use Rattle.std.specs.Prelude.{◌≡◌, ◌&&◌, not, Ok, IfOk, IfErr};
ghost use Rattle.norprog_device.specs.Blame.{is_cut};
ghost use Rattle.nor_base.specs.Wire.{wire};
ghost use Rattle.norprog_read.specs.Blame.{fault_in};
ghost use Rattle.norprog_read.specs.Opened.{HasReadOpened, HasReadTested, StopsOpened, StopsTested};

use crate::asked::{Ask, Reading};
use crate::blame::fault_in;
use crate::chip::read_chip;
use crate::fault::Unread;
use nor_base::{ByteIn, ByteOut};
use nor_serprog::{Limits, greet, test_line};
use norprog_device::{DeviceFault, is_cut, let_go};
use std::alloc::Global;

/// Begins with a device, tests the line to it, and has its chip read, as [`read_chip`] does, by the
/// limits that the device reports. At last it lets the chip's pins go, where it drives them; its
/// answer changes nothing. After a failed write nothing more is sent.
///
/// `Device` where the handshake or the test of the line ended early.
pub fn read_opened<R: ByteIn, W: ByteOut, P: ByteOut>(
    alloc: Global,
    from: &mut R,
    to: &mut W,
    ask: &Ask<'_>,
    progress: &mut P,
) -> Result<Reading, Unread>
    ensures read { IfOk result (λ reading. HasReadOpened (wire (W.held to.old) (R.ahead from.old))
        (wire (W.held to.new) (R.ahead from.new)) ask.now reading) }
    ensures stops { IfErr result (StopsOpened (wire (W.held to.old) (R.ahead from.old))
        (wire (W.held to.new) (R.ahead from.new)) ask.now) }
{
    let limits = match greet(from, to) {
        Ok(limits) => limits,
        Err(why) => return Err(Unread::Device(DeviceFault::Greet(why))),
    };
    let read = read_tested(alloc, from, to, &limits, ask, progress);
    let pins = frees_pins(&limits, &read);
    let_go(from, to, pins);
    read
}

/// Whether the pins are let go after a reading that ended so: the device drives them, and no
/// request was cut. A device would take what follows as the rest of such a request.
fn frees_pins(limits: &Limits, read: &Result<Reading, Unread>) -> bool
    ensures { result ≡ (limits.now.pins && not (is_cut (fault_in read.now))) }
{
    limits.pins && !is_cut(fault_in(read))
}

/// Tests the line to a device, and has its chip read.
fn read_tested<R: ByteIn, W: ByteOut, P: ByteOut>(
    alloc: Global,
    from: &mut R,
    to: &mut W,
    limits: &Limits,
    ask: &Ask<'_>,
    progress: &mut P,
) -> Result<Reading, Unread>
    ensures read { IfOk result (λ reading. HasReadTested (wire (W.held to.old) (R.ahead from.old))
        (wire (W.held to.new) (R.ahead from.new)) limits.now ask.now reading) }
    ensures stops { IfErr result (StopsTested (wire (W.held to.old) (R.ahead from.old))
        (wire (W.held to.new) (R.ahead from.new)) limits.now ask.now) }
{
    match test_line(from, to, limits) {
        Ok(()) => read_chip(alloc, from, to, limits, ask, progress),
        Err(why) => Err(Unread::Device(DeviceFault::Line(why))),
    }
}
