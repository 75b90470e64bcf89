//! What is printed before the first step: the plan, and how to go on with work that stops on the
//! way.

ghost use Rattle.std.specs.Prelude.{◌≡◌, count_by, nat_eq};
ghost use Rattle.nor_base.specs.Device.{Counts, Writes};
ghost use Rattle.norprog_flash.specs.Way.{is_listed, last_text, lines_text, plan_text, way_line};
ghost use Rattle.norprog_flash.specs.Task.{works};
ghost use Rattle.norprog_flash.specs.Way.{way_text};

use crate::job::{Job, works};
use crate::options::write_way_on;
use crate::planned::Work;
use itoa::Buffer;
use nor_base::{ByteOut, Failed, put_all, put_parts};
use norprog::write_report;
use norprog_common::FlashArgs;
use norprog_read::{Reading, write_note};

/// What comes before the command.
const FRONT: &[u8] =
    b"if this stops on the way: switch the chip's power off and on, and go on with: ";

/// Writes a plan: all its lines where they are asked for, or else how many they are; and its
/// report.
pub(crate) fn write_plan<O: ByteOut>(job: &Job<'_>, work: &Work, out: &mut O) -> Result<(), Failed>
    ensures bytes { Writes (O.held out.old) (O.held out.new) result
        (plan_text job.now work.now.lines.items work.now.report) }
    ensures count { Counts (O.count out.old) (O.count out.new) result }
{
    write_lines(is_listed(job), work.lines.as_slice(), out)?;
    write_report(&work.report, out)
}

/// Whether the whole plan is printed.
fn is_listed(job: &Job<'_>) -> bool
    ensures { result ≡ is_listed job.now }
{
    !works(job.aim) || job.texts.list
}

/// Writes lines, or how many they are.
fn write_lines<O: ByteOut>(listed: bool, lines: &[u8], out: &mut O) -> Result<(), Failed>
    ensures bytes { Writes (O.held out.old) (O.held out.new) result
        (lines_text listed lines.now) }
    ensures count { Counts (O.count out.old) (O.count out.new) result }
{
    if listed {
        return put_all(out, lines);
    }
    let mut digits = Buffer::new();
    let count = count_lines(lines);
    put_parts(out, &[b"lines ", digits.format(count).as_bytes(), b"\n"])
}

/// How many lines are closed.
fn count_lines(lines: &[u8]) -> u64
    ensures { result ≡ count_by (nat_eq 10) lines.now }
{
    lines.iter().filter(|byte| **byte == b'\n').count() as u64
}

/// Writes the size that the identification says, where that is to be noted; and how to go on where
/// so many steps stop on the way, nothing where there are none, and where only the plan is wanted.
pub(crate) fn write_last<O: ByteOut>(
    job: &Job<'_>,
    reading: &Reading,
    steps: u64,
    out: &mut O,
) -> Result<(), Failed>
    ensures bytes { Writes (O.held out.old) (O.held out.new) result
        (last_text job.now reading.now steps) }
    ensures count { Counts (O.count out.old) (O.count out.new) result }
{
    write_note(reading.note, out)?;
    write_way(job, steps, out)
}

/// Writes how to go on.
fn write_way<O: ByteOut>(job: &Job<'_>, steps: u64, out: &mut O) -> Result<(), Failed>
    ensures bytes { Writes (O.held out.old) (O.held out.new) result
        (way_text (works job.now.aim) steps job.now.texts.now) }
    ensures count { Counts (O.count out.old) (O.count out.new) result }
{
    if works(job.aim) && steps > 0 {
        write_line(job.texts, out)
    } else {
        Ok(())
    }
}

/// Writes the line, closed by LF.
fn write_line<W: ByteOut>(texts: &FlashArgs<'_>, writer: &mut W) -> Result<(), Failed>
    ensures bytes { Writes (W.held writer.old) (W.held writer.new) result (way_line texts.now) }
    ensures count { Counts (W.count writer.old) (W.count writer.new) result }
{
    put_all(writer, FRONT)?;
    write_way_on(texts, writer)?;
    put_all(writer, b"\n")
}
