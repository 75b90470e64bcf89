//! The writer.

ghost use Rattle.std.specs.Prelude.{◌≡◌, ◌+◌, ◌-◌, ◌≤◌, ◌%◌, ◌^◌, length, IfOk};
ghost use Rattle.nor_base.specs.Device.{Writes, Counts};
ghost use Rattle.nor_hex.specs.WrittenRecords.{end_record, record_text};
ghost use Rattle.nor_hex.specs.WrittenSegments.{rows, image_records, text_of, hex_text};

use crate::written_record::{ROW, put_record};
use nor_base::{ByteOut, Failed, IntoWrite};
use std::alloc::Global;

/// How many bytes a segment has.
const SEGMENT: usize = 1 << 16;

/// Writes the whole text of bytes from the address `at` on, of which the last is at FFFFFFFFh or
/// below. Without bytes that is the end record.
///
/// At `Failed` a proper prefix was taken. It comes only from the writer, whose count of failures
/// rose by one.
pub fn write_hex<W: ByteOut>(at: u32, bytes: &[u8], out: &mut W) -> Result<(), Failed>
    requires fits { at + length bytes.now ≤ 2 ^ 32 }
    ensures bytes { Writes (W.held out.old) (W.held out.new) result (hex_text at bytes.now) }
    ensures count { Counts (W.count out.old) (W.count out.new) result }
{
    let mut done = 0;
    while done < bytes.len() {
        let address = at + done as u32;
        let end = bytes.len().min(done + room(address));
        write_data(address, &bytes[done..end], out)?;
        done = end;
    }
    write_end(out)
}

/// The whole text of bytes from an address on, as [`write_hex`] writes it. `Failed` where a growth
/// of memory is refused.
pub fn hex_of(alloc: Global, at: u32, bytes: &[u8]) -> Result<Vec<u8>, Failed>
    requires fits { at + length bytes.now ≤ 2 ^ 32 }
    ensures text { IfOk result (λ text. text.items ≡ hex_text at bytes.now) }
{
    let mut text = IntoWrite::new(Vec::new(alloc));
    write_hex(at, bytes, &mut text)?;
    Ok(text.into_inner())
}

/// How many addresses a segment has from this one on.
fn room(at: u32) -> usize
    ensures { result ≡ 65536 - at % 65536 }
{
    SEGMENT - at as usize % SEGMENT
}

/// Writes the records of bytes from the address `at` on that are all in one segment of 64 KiB: its
/// upper half, and the data. Without bytes it writes nothing.
///
/// At `Failed` a proper prefix was taken. It comes only from the writer, whose count of failures
/// rose by one.
pub fn write_data<W: ByteOut>(at: u32, bytes: &[u8], out: &mut W) -> Result<(), Failed>
    requires inside { at % 65536 + length bytes.now ≤ 65536 }
    ensures bytes { Writes (W.held out.old) (W.held out.new) result
        (text_of (image_records at bytes.now)) }
    ensures count { Counts (W.count out.old) (W.count out.new) result }
{
    if bytes.is_empty() {
        return Ok(());
    }
    put_record(
        4,
        0,
        &[(at / (1 << 24)) as u8, (at / (1 << 16) % 256) as u8],
        out,
    )?;
    put_rows((at % (1 << 16)) as u16, bytes, out)
}

/// Writes the data records of bytes from this load offset on.
fn put_rows<W: ByteOut>(offset: u16, bytes: &[u8], out: &mut W) -> Result<(), Failed>
    requires inside { offset + length bytes.now ≤ 65536 }
    ensures bytes { Writes (W.held out.old) (W.held out.new) result
        (text_of (rows offset bytes.now)) }
    ensures count { Counts (W.count out.old) (W.count out.new) result }
{
    for number in 0..bytes.len().div_ceil(ROW) {
        let place = ROW * number;
        let end = bytes.len().min(place + ROW);
        put_record(0, offset + place as u16, &bytes[place..end], out)?;
    }
    Ok(())
}

/// Writes the end record.
///
/// At `Failed` a proper prefix was taken. It comes only from the writer, whose count of failures
/// rose by one.
pub fn write_end<W: ByteOut>(out: &mut W) -> Result<(), Failed>
    ensures bytes { Writes (W.held out.old) (W.held out.new) result (record_text end_record) }
    ensures count { Counts (W.count out.old) (W.count out.new) result }
{
    put_record(1, 0, &[], out)
}
