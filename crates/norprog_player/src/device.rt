//! Steps on a device, between the test of its line and its pins.

ghost use Rattle.std.specs.Prelude.{◌≡◌, ◌<◌, ◌*◌, ◌^◌, All, IfOk, MatchResult, length};
ghost use Rattle.nor_base.specs.Chip.{begins4};
ghost use Rattle.nor_base.specs.Wire.{wire};
ghost use Rattle.nor_cells.specs.Compared.{IsAsked};
ghost use Rattle.nor_cells.specs.Marks.{AreMarks};
ghost use Rattle.nor_cells.specs.Touched.{HasTouched, IsTouched};
ghost use Rattle.nor_serprog.specs.Done.{IsDoable};
ghost use Rattle.nor_serprog.specs.Steps.{AreCarried};
ghost use Rattle.norprog_player.specs.Ending.{EndsOnChip, SaysBlank, doing};
ghost use Rattle.norprog_player.specs.Expected.{expectation_of};

use crate::access::access_of;
use crate::asked::begin;
use crate::content::compare_unless_trusted;
use crate::course::Course;
use crate::ending::Ending;
use crate::expected::Expected;
use crate::windows::do_steps;
use nor_base::{ByteIn, ByteOut};
use nor_cells::{TouchedCells, first_held, mark_wraps};
use nor_serprog::Limits;
use norprog_device::{Doing, Failure, Stop, failure_by};
use std::alloc::{AllocError, Global};

/// Has a device do steps after the test of its line, in the order of docs/FORMATS.md, section 14.
/// How many are done is written to `progress`; where that fails nothing changes.
///
/// Memory is taken before the chip is asked for anything, and for a window of steps at a time.
pub fn play_on_device<R: ByteIn, W: ByteOut, P: ByteOut>(
    alloc: Global,
    from: &mut R,
    to: &mut W,
    limits: &Limits,
    course: &Course<'_>,
    progress: &mut P,
) -> Result<Ending, AllocError>
    requires form { All IsDoable course.now.steps.now }
    requires sizes { (length course.now.content.now ≡ course.now.meaning.now.size)
        × (length course.now.left.now ≡ course.now.meaning.now.size) }
    ensures ends { MatchResult result
        (EndsOnChip limits.now course.now (wire (W.held to.old) (R.ahead from.old))
        (wire (W.held to.new) (R.ahead from.new)))
        (λ _. (from.new ≡ from.old) × (to.new ≡ to.old)) }
{
    if let Some(step) = course.steps.first_not_carried(alloc, limits)? {
        let why = Failure::Carried;
        return Ok(Ending::Failed { step, why });
    }
    course.meaning.acceptance();
    let touched = touched_cells(alloc, course)?;
    let mut cells = touched.compared(alloc, course.content)?;
    let cells = cells.as_mut_slice();
    Ok(play_compared(alloc, from, to, limits, course, cells, progress))
}

/// The cells that the steps touch.
fn touched_cells<'a>(alloc: Global, course: &Course<'a>) -> Result<TouchedCells<'a>, AllocError>
    ensures { IfOk result (HasTouched course.now.meaning.now course.now.expected.start
        course.now.steps.now) }
{
    let mut cells = TouchedCells::new(alloc, course.meaning, &course.expected.start)?;
    let mut ahead = course.steps.unpack();
    while ahead.has_more() {
        let window = ahead.next_window(alloc)?;
        cells.touch(window.as_slice());
    }
    Ok(cells)
}

/// Asks the chip behind the device, has it do steps that the device can do, and reads it again.
fn play_compared<R: ByteIn, W: ByteOut, P: ByteOut>(
    alloc: Global,
    from: &mut R,
    to: &mut W,
    limits: &Limits,
    course: &Course<'_>,
    cells: &mut [bool],
    progress: &mut P,
) -> Ending
    requires form { All IsDoable course.now.steps.now }
    requires carried { AreCarried limits.now course.now.steps.now }
    requires sizes { (length course.now.content.now ≡ 256 * length cells.old)
        × (length course.now.left.now ≡ 256 * length cells.old)
        × (256 * length cells.old < 2 ^ 32) }
    requires cells { AreMarks (IsAsked (IsTouched course.now.meaning.now
        (begins4 course.now.meaning.now course.now.expected.start) course.now.steps.now)
        course.now.content.now) (length cells.old) cells.old }
    ensures { EndsOnChip limits.now course.now (wire (W.held to.old) (R.ahead from.old))
        (wire (W.held to.new) (R.ahead from.new)) result }
{
    let access = access_of(course.meaning, &course.expected.start);
    if let Err(why) = begin(from, to, limits, course, access, cells) {
        return Ending::Unlike { why };
    }
    let doing = doing_of(limits, course);
    if let Err(Stop { step, why }) = do_steps(alloc, from, to, &doing, course.steps, progress) {
        return Ending::Failed { step, why };
    }
    mark_wraps(cells, course.left);
    let trusted = course.expected.trusted;
    match compare_unless_trusted(from, to, limits, access, course.left, cells, trusted) {
        Ok(()) => Ending::Done {
            transactions: course.steps.len() as u64,
            blank: says_blank(course.expected, course.content),
        },
        Err(why) => Ending::Failed {
            step: course.steps.len() as u64,
            why: failure_by(why),
        },
    }
}

/// How the device does the steps.
fn doing_of<'a>(limits: &'a Limits, course: &Course<'a>) -> Doing<'a>
    ensures { result ≡ doing limits.now course.now }
{
    Doing {
        limits,
        turns: course.turns,
        meaning: course.meaning,
    }
}

/// Whether a content says nothing of which chip it is, and the chip isn't trusted.
fn says_blank(expected: Expected<'_>, content: &[u8]) -> bool
    ensures { SaysBlank (expectation_of expected.entry) content.now result }
{
    if expected.trusted {
        return false;
    }
    match first_held(content) {
        Some(_) => false,
        None => true,
    }
}
