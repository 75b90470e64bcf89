//! The line of a failure.

ghost use Rattle.nor_base.specs.Device.{Writes, Counts};
ghost use Rattle.norprog_device.specs.declared.failure.Failure.TheVariants.{Differs, Gives};
ghost use Rattle.norprog_device.specs.FailureLine.{failed_line, failure_line, wrong_line};

use crate::failure::Failure;
use crate::line::word;
use itoa::Buffer;
use nor_base::{ByteOut, Failed, Wrong, put_parts};
use nor_reader::Difference;
use nor_script::{hex_number, hex_pair};
use norprog_common::wrong_number;

/// Writes why a step isn't done, in a line: `failed at K WHY`, with the step in decimal, counted
/// from 0; for a device that stays busy `wrong 6 at K`. It takes no memory.
///
/// `Failed` comes only from the writer.
pub fn write_failure<W: ByteOut>(step: u64, why: Failure, writer: &mut W) -> Result<(), Failed>
    ensures bytes { Writes (W.held writer.old) (W.held writer.new) result (failure_line step why) }
    ensures count { Counts (W.count writer.old) (W.count writer.new) result }
{
    match why {
        Failure::Exchange(fault) => write_failed(step, word(fault), writer),
        Failure::Busy => write_wrong(wrong_number(Wrong::PollNever), step, writer),
        Failure::Carried => write_failed(step, b"carried", writer),
        Failure::Memory => write_failed(step, b"memory", writer),
        Failure::Differs(d) => write_other(step, d, writer),
        Failure::Gives { chip, want } => write_gives(step, chip, want, writer),
    }
}

/// Writes `failed at K differs at AAAAAAAA chip HH want HH`.
fn write_other<W: ByteOut>(step: u64, d: Difference, writer: &mut W) -> Result<(), Failed>
    ensures bytes { Writes (W.held writer.old) (W.held writer.new) result
        (failure_line step (Differs d)) }
    ensures count { Counts (W.count writer.old) (W.count writer.new) result }
{
    let mut place = Buffer::new();
    put_parts(
        writer,
        &[
            b"failed at ",
            place.format(step).as_bytes(),
            b" differs at ",
            &hex_number(d.address),
            b" chip ",
            &hex_pair(d.chip),
            b" want ",
            &hex_pair(d.want),
            b"\n",
        ],
    )
}

/// Writes `failed at K differs chip HH want HH`.
fn write_gives<W: ByteOut>(step: u64, chip: u8, want: u8, writer: &mut W) -> Result<(), Failed>
    ensures bytes { Writes (W.held writer.old) (W.held writer.new) result
        (failure_line step (Gives chip want)) }
    ensures count { Counts (W.count writer.old) (W.count writer.new) result }
{
    let mut place = Buffer::new();
    put_parts(
        writer,
        &[
            b"failed at ",
            place.format(step).as_bytes(),
            b" differs chip ",
            &hex_pair(chip),
            b" want ",
            &hex_pair(want),
            b"\n",
        ],
    )
}

/// Writes `wrong N at K`, with both numbers in decimal. It takes no memory.
///
/// `Failed` comes only from the writer.
pub fn write_wrong<W: ByteOut>(number: u8, step: u64, writer: &mut W) -> Result<(), Failed>
    ensures bytes { Writes (W.held writer.old) (W.held writer.new) result (wrong_line number step) }
    ensures count { Counts (W.count writer.old) (W.count writer.new) result }
{
    let mut digits = Buffer::new();
    let mut place = Buffer::new();
    put_parts(
        writer,
        &[
            b"wrong ",
            digits.format(number).as_bytes(),
            b" at ",
            place.format(step).as_bytes(),
            b"\n",
        ],
    )
}

/// Writes `failed at K WHY`.
fn write_failed<W: ByteOut>(step: u64, why: &[u8], writer: &mut W) -> Result<(), Failed>
    ensures bytes { Writes (W.held writer.old) (W.held writer.new) result
        (failed_line step why.now) }
    ensures count { Counts (W.count writer.old) (W.count writer.new) result }
{
    let mut place = Buffer::new();
    put_parts(
        writer,
        &[
            b"failed at ",
            place.format(step).as_bytes(),
            b" ",
            why,
            b"\n",
        ],
    )
}
