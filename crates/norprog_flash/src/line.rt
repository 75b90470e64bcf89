//! What is written of how work on a chip ends.

ghost use Rattle.nor_base.specs.Device.{Counts, Writes};
ghost use Rattle.norprog_flash.specs.Line.{closed_line, comparison_line, ending_line};
ghost use Rattle.norprog_flash.specs.declared.compared.Comparison.TheVariants.{Differs};

use crate::compared::Comparison;
use crate::ending::Ending;
use itoa::Buffer;
use nor_base::{ByteOut, Failed, Part, put_parts};
use nor_script::{hex_number, hex_pair};
use norprog_device::{write_failure, write_status};

/// Writes the line of an ending, closed by LF: `ok N` with the number of steps, or why one wasn't
/// done, as [`write_failure`] does; `same N`, or in two lines what differs; of a plan nothing. It
/// takes no memory.
///
/// At `Failed` a proper prefix was taken; it comes only from the writer, whose count of failures
/// rose by one.
pub fn write_ending<W: ByteOut>(ending: Ending, writer: &mut W) -> Result<(), Failed>
    ensures bytes { Writes (W.held writer.old) (W.held writer.new) result (ending_line ending) }
    ensures count { Counts (W.count writer.old) (W.count writer.new) result }
{
    match ending {
        Ending::Planned => Ok(()),
        Ending::Compared(comparison) => write_comparison(comparison, writer),
        Ending::Done { transactions } => {
            let mut count = Buffer::new();
            put_parts(
                writer,
                &[b"ok ", count.format(transactions).as_bytes(), b"\n"],
            )
        }
        Ending::Failed { step, why } => write_failure(step, why, writer),
    }
}

/// Writes `same N`, or what differs.
fn write_comparison<W: ByteOut>(comparison: Comparison, writer: &mut W) -> Result<(), Failed>
    ensures bytes { Writes (W.held writer.old) (W.held writer.new) result
        (comparison_line comparison) }
    ensures count { Counts (W.count writer.old) (W.count writer.new) result }
{
    match comparison {
        Comparison::Same { bytes } => {
            let mut count = Buffer::new();
            put_parts(writer, &[b"same ", count.format(bytes).as_bytes(), b"\n"])
        }
        Comparison::Differs {
            at,
            chip,
            want,
            bytes,
        } => write_difference(at, chip, want, bytes, writer),
    }
}

/// Writes the first address that differs, and how many do.
fn write_difference<W: ByteOut>(
    at: u32,
    chip: u8,
    want: u8,
    bytes: u64,
    writer: &mut W,
) -> Result<(), Failed>
    ensures bytes { Writes (W.held writer.old) (W.held writer.new) result
        (comparison_line (Differs at chip want bytes)) }
    ensures count { Counts (W.count writer.old) (W.count writer.new) result }
{
    let mut count = Buffer::new();
    put_parts(
        writer,
        &[
            b"differs at ",
            &hex_number(at),
            b" chip ",
            &hex_pair(chip),
            b" want ",
            &hex_pair(want),
            b"\ndiffering ",
            count.format(bytes).as_bytes(),
            b"\n",
        ],
    )
}

/// Writes `unlike status` and the status: S7 to S0 in two digits, of a part whose registers are
/// known S23 to S0 in six; and LF.
pub fn write_closed<W: ByteOut>(part: Part, status: u32, writer: &mut W) -> Result<(), Failed>
    ensures bytes { Writes (W.held writer.old) (W.held writer.new) result
        (closed_line part status) }
    ensures count { Counts (W.count writer.old) (W.count writer.new) result }
{
    write_status(b"unlike status ", part, status, writer)
}
