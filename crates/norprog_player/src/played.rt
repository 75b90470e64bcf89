//! Steps on a device that was opened, from its handshake on.

ghost use Rattle.std.specs.Prelude.{◌≡◌, ◌&&◌, not, All, length};
ghost use Rattle.nor_base.specs.Wire.{wire};
ghost use Rattle.nor_serprog.specs.Done.{IsDoable};
ghost use Rattle.norprog_device.specs.Blame.{is_cut};
ghost use Rattle.norprog_player.specs.Blame.{fault_in};
ghost use Rattle.norprog_player.specs.Played.{EndsGreeted, EndsTested};

use crate::blame::fault_in;
use crate::course::Course;
use crate::device::play_on_device;
use crate::ending::Ending;
use crate::unplayed::Unplayed;
use nor_base::{ByteIn, ByteOut};
use nor_serprog::{Limits, greet, test_line};
use norprog_device::{DeviceFault, is_cut, let_go};
use std::alloc::Global;

/// Begins with a device, tests the line to it, and has it do steps as [`play_on_device`] does. At
/// last it lets the pins of the device's chip go, where it drives them; after a failed write
/// nothing more is sent.
///
/// `Device` where the handshake or the test of the line ended early, `Refused` for `Memory`: no
/// step was sent.
pub fn play_on<R: ByteIn, W: ByteOut, P: ByteOut>(
    alloc: Global,
    from: &mut R,
    to: &mut W,
    course: &Course<'_>,
    progress: &mut P,
) -> Result<Ending, Unplayed>
    requires form { All IsDoable course.now.steps.now }
    requires sizes { (length course.now.content.now ≡ course.now.meaning.now.size)
        × (length course.now.left.now ≡ course.now.meaning.now.size) }
    ensures { EndsGreeted course.now (wire (W.held to.old) (R.ahead from.old))
        (wire (W.held to.new) (R.ahead from.new)) result }
{
    let limits = match greet(from, to) {
        Ok(limits) => limits,
        Err(why) => return Err(Unplayed::Device(DeviceFault::Greet(why))),
    };
    let ended = play_tested(alloc, from, to, &limits, course, progress);
    let_go(from, to, frees_pins(&limits, &ended));
    ended
}

/// Whether the pins are let go after a play that ended so: the device drives them, and no request
/// was cut. A device would take what follows as the rest of such a request.
fn frees_pins(limits: &Limits, ended: &Result<Ending, Unplayed>) -> bool
    ensures { result ≡ (limits.now.pins && not (is_cut (fault_in ended.now))) }
{
    limits.pins && !is_cut(fault_in(ended))
}

/// Tests the line to a device, and has it do steps.
fn play_tested<R: ByteIn, W: ByteOut, P: ByteOut>(
    alloc: Global,
    from: &mut R,
    to: &mut W,
    limits: &Limits,
    course: &Course<'_>,
    progress: &mut P,
) -> Result<Ending, Unplayed>
    requires form { All IsDoable course.now.steps.now }
    requires sizes { (length course.now.content.now ≡ course.now.meaning.now.size)
        × (length course.now.left.now ≡ course.now.meaning.now.size) }
    ensures { EndsTested limits.now course.now (wire (W.held to.old) (R.ahead from.old))
        (wire (W.held to.new) (R.ahead from.new)) result }
{
    if let Err(why) = test_line(from, to, limits) {
        return Err(Unplayed::Device(DeviceFault::Line(why)));
    }
    Ok(play_on_device(alloc, from, to, limits, course, progress)?)
}
