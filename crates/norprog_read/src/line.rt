//! What is printed of a chip that was read, and of one that wasn't.

ghost use Rattle.std.specs.Prelude.{◌≡◌};
ghost use Rattle.nor_base.specs.Device.{Counts, Writes};
ghost use Rattle.norprog_read.specs.declared.fault.Unlike.TheVariants.{Size};
ghost use Rattle.norprog_read.specs.Line.{content_line, fault_number, no_tables_lines, note_line};
ghost use Rattle.norprog_read.specs.Line.{reading_text, unlike_line};

use crate::asked::Reading;
use crate::fault::Unlike;
use itoa::Buffer;
use nor_base::{ByteOut, Failed, put_all, put_parts};
use nor_script::{hex_number, hex_pair};
use nor_sfdp::SfdpFault;
use norprog::sfdp_text;
use norprog_device::{registers, word, write_difference, write_digits, write_status};

/// What is written where nothing shows the address mode.
const HIDDEN: &[u8] = b"unreadable: what the chip holds doesn't show its address mode\n";

/// Writes what a chip gave (docs/FORMATS.md, section 14): its identification, with a note of its
/// size, its status, the lines of its meaning and, where it was read, `read N twice alike`.
///
/// At `Failed` a proper prefix was taken; it comes only from the writer, whose count of failures
/// rose by one.
pub fn write_reading<W: ByteOut>(reading: &Reading, writer: &mut W) -> Result<(), Failed>
    ensures bytes { Writes (W.held writer.old) (W.held writer.new) result
        (reading_text reading.now) }
    ensures count { Counts (W.count writer.old) (W.count writer.new) result }
{
    let [maker, high, low] = reading.id;
    write_digits(b"id ", &[maker, high, low], writer)?;
    write_note(reading.note, writer)?;
    write_status(b"status ", reading.part, reading.status, writer)?;
    sfdp_text(&reading.meaning, writer)?;
    write_count(reading.whole, reading.content.as_slice(), writer)
}

/// Writes the size that an identification says, where that is to be noted.
///
/// At `Failed` a proper prefix was taken; it comes only from the writer, whose count of failures
/// rose by one.
pub fn write_note<W: ByteOut>(note: Option<u32>, writer: &mut W) -> Result<(), Failed>
    ensures bytes { Writes (W.held writer.old) (W.held writer.new) result (note_line note) }
    ensures count { Counts (W.count writer.old) (W.count writer.new) result }
{
    match note {
        None => Ok(()),
        Some(size) => {
            let mut number = Buffer::new();
            let digits = number.format(size).as_bytes();
            put_parts(
                writer,
                &[b"note: the identification says ", digits, b" bytes\n"],
            )
        }
    }
}

/// Writes how many bytes came twice alike, where they were wanted.
fn write_count<W: ByteOut>(wanted: bool, content: &[u8], writer: &mut W) -> Result<(), Failed>
    ensures bytes { Writes (W.held writer.old) (W.held writer.new) result
        (content_line wanted content.now) }
    ensures count { Counts (W.count writer.old) (W.count writer.new) result }
{
    if !wanted {
        return Ok(());
    }
    let mut count = Buffer::new();
    let digits = count.format(content.len()).as_bytes();
    put_parts(writer, &[b"read ", digits, b" twice alike\n"])
}

/// Writes why the chip isn't read, in a line that begins with `unlike` or `unreadable`; or in two,
/// `id HHHHHH` and `no tables: N` (docs/FORMATS.md, section 14).
///
/// At `Failed` a proper prefix was taken; it comes only from the writer, whose count of failures
/// rose by one.
pub fn write_unlike<W: ByteOut>(why: Unlike, writer: &mut W) -> Result<(), Failed>
    ensures bytes { Writes (W.held writer.old) (W.held writer.new) result (unlike_line why) }
    ensures count { Counts (W.count writer.old) (W.count writer.new) result }
{
    match why {
        Unlike::Busy => put_all(writer, b"unlike busy\n"),
        Unlike::Asking(fault) => put_parts(writer, &[b"unlike ", word(fault), b"\n"]),
        Unlike::Mode(status) => write_digits(b"unlike status ", &registers(status), writer),
        Unlike::At(address) => { put_parts(writer, &[b"unlike at ", &hex_number(address), b"\n"]) }
        Unlike::Tables(d) => write_difference(b"unlike tables at ", b" file ", d, writer),
        Unlike::Id(id) => write_digits(b"unlike id ", &id, writer),
        Unlike::Line => put_all(writer, b"unlike line\n"),
        Unlike::Repeats => put_all(writer, b"unlike repeats\n"),
        Unlike::Unreadable => put_all(writer, b"unreadable\n"),
        Unlike::NoTables { id, fault } => write_no_tables(&id, fault, writer),
        Unlike::Hidden => put_all(writer, HIDDEN),
        Unlike::Size(size) => write_size(size, writer),
        Unlike::Moved(value) => {
            put_parts(writer, &[b"unlike register ", &hex_pair(value), b"\n"])
        }
    }
}

/// Writes which size the tables say.
fn write_size<W: ByteOut>(size: u32, writer: &mut W) -> Result<(), Failed>
    ensures bytes { Writes (W.held writer.old) (W.held writer.new) result
        (unlike_line (Size size)) }
    ensures count { Counts (W.count writer.old) (W.count writer.new) result }
{
    let mut number = Buffer::new();
    let digits = number.format(size).as_bytes();
    put_parts(
        writer,
        &[b"unlike size: the chip's tables say ", digits, b" bytes\n"],
    )
}

/// Writes what the chip says that it is, and why it has no tables.
fn write_no_tables<W: ByteOut>(id: &[u8; 3], fault: SfdpFault, writer: &mut W) -> Result<(), Failed>
    ensures bytes { Writes (W.held writer.old) (W.held writer.new) result
        (no_tables_lines id.now fault) }
    ensures count { Counts (W.count writer.old) (W.count writer.new) result }
{
    write_digits(b"id ", id, writer)?;
    let mut number = Buffer::new();
    let digits = number.format(fault_number(fault)).as_bytes();
    put_parts(writer, &[b"no tables: ", digits, b"\n"])
}

/// The number of a cause for which SFDP bytes aren't accepted.
fn fault_number(fault: SfdpFault) -> u8
    ensures { result ≡ fault_number fault }
{
    match fault {
        SfdpFault::Signature => 1,
        SfdpFault::Truncated => 2,
        SfdpFault::NoBasic => 3,
        SfdpFault::Major => 4,
        SfdpFault::ShortTable => 5,
        SfdpFault::Density => 6,
        SfdpFault::AddressBytes => 7,
        SfdpFault::PageSize => 8,
        SfdpFault::EraseSize => 9,
        SfdpFault::MapForm => 10,
        SfdpFault::ConfigBits => 11,
        SfdpFault::NoMap => 12,
        SfdpFault::MapSize => 13,
        SfdpFault::Opcode => 14,
    }
}
