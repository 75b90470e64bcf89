//! The line that tells how a script ends on a device.

ghost use Rattle.nor_base.specs.Device.{Writes, Counts};
ghost use Rattle.norprog_player.specs.Line.{done_line, ending_line, exchange_line, mismatch_line};
ghost use Rattle.norprog_player.specs.Line.{unlike_line};

use crate::ending::{Ending, Unlike};
use itoa::Buffer;
use nor_base::{ByteOut, Failed, Part, put_all, put_parts};
use nor_check::Verdict;
use nor_reader::Mismatch;
use nor_script::hex_pair;
use nor_serprog::Fault;
use norprog_check::write_verdict;
use norprog_common::wrong_number;
use norprog_device::{word, write_difference, write_failure, write_status, write_wrong};

/// What comes before a status.
const STATUS: &[u8] = b"unlike status ";

/// Writes the line of an ending (docs/FORMATS.md, section 14), closed by LF, with counts in
/// decimal, addresses in eight and bytes in two lower-case hexadecimal digits. It takes no memory.
///
/// `Failed` comes only from the writer.
pub fn write_ending<W: ByteOut>(ending: &Ending, writer: &mut W) -> Result<(), Failed>
    ensures bytes { Writes (W.held writer.old) (W.held writer.new) result (ending_line ending.now) }
    ensures count { Counts (W.count writer.old) (W.count writer.new) result }
{
    match *ending {
        Ending::Done {
            transactions,
            blank,
        } => write_done(transactions, blank, writer),
        Ending::Wrong { step, why } => write_wrong(wrong_number(why), step, writer),
        Ending::No { step, why } => write_verdict(&Verdict::No { step, why }, writer),
        Ending::Unlike { why } => write_unlike(why, writer),
        Ending::Failed { step, why } => write_failure(step, why, writer),
    }
}

/// Writes `ok N`, and `blank` on a line before it where the content says nothing of which chip it
/// is.
fn write_done<W: ByteOut>(transactions: u64, blank: bool, writer: &mut W) -> Result<(), Failed>
    ensures bytes { Writes (W.held writer.old) (W.held writer.new) result
        (done_line transactions blank) }
    ensures count { Counts (W.count writer.old) (W.count writer.new) result }
{
    let mut count = Buffer::new();
    let digits = count.format(transactions).as_bytes();
    if blank {
        put_parts(writer, &[b"blank\nok ", digits, b"\n"])
    } else {
        put_parts(writer, &[b"ok ", digits, b"\n"])
    }
}

/// Writes `unlike WHY`: `busy`, `status` or `register` and its value, `tables` or `differs` and the
/// first byte that is another, or the word of an exchange.
fn write_unlike<W: ByteOut>(why: Unlike, writer: &mut W) -> Result<(), Failed>
    ensures bytes { Writes (W.held writer.old) (W.held writer.new) result (unlike_line why) }
    ensures count { Counts (W.count writer.old) (W.count writer.new) result }
{
    match why {
        Unlike::Busy => put_all(writer, b"unlike busy\n"),
        Unlike::Asking(fault) => write_exchange(fault, writer),
        Unlike::Status(status) => write_status(STATUS, Part::Generic, status, writer),
        Unlike::Registers(status) => write_status(STATUS, Part::W25q256jv, status, writer),
        Unlike::Tables(why) => write_mismatch(b"unlike tables at ", b" file ", why, writer),
        Unlike::Moved(value) => {
            put_parts(writer, &[b"unlike register ", &hex_pair(value), b"\n"])
        }
        Unlike::Content(why) => write_mismatch(b"unlike differs at ", b" dump ", why, writer),
    }
}

/// Writes `unlike` and the word of an exchange.
fn write_exchange<W: ByteOut>(fault: Fault, writer: &mut W) -> Result<(), Failed>
    ensures bytes { Writes (W.held writer.old) (W.held writer.new) result (exchange_line fault) }
    ensures count { Counts (W.count writer.old) (W.count writer.new) result }
{
    put_parts(writer, &[b"unlike ", word(fault), b"\n"])
}

/// Writes the first byte that is another, behind and between these texts, or `unlike` and the word
/// of an exchange.
fn write_mismatch<W: ByteOut>(
    front: &[u8],
    last: &[u8],
    why: Mismatch,
    writer: &mut W,
) -> Result<(), Failed>
    ensures bytes { Writes (W.held writer.old) (W.held writer.new) result
        (mismatch_line front.now last.now why) }
    ensures count { Counts (W.count writer.old) (W.count writer.new) result }
{
    match why {
        Mismatch::Exchange(fault) => write_exchange(fault, writer),
        Mismatch::Differs(d) => write_difference(front, last, d, writer),
    }
}
