//! Rows on Intel HEX.

use crate::bench::Asked;
use crate::faults::put_fault;
use crate::words::{end_with, text};
use nor_hex::{HexFault, HexLine, Image, read, records};
use nor_job::BuildFault;
use std::alloc::AllocError;
use std::io;
use test_samples::words::{ODD, number};

/// The image of the text that is handed over, or its fault.
pub(crate) fn image_of(asked: &Asked<'_, '_>) -> io::Result<Result<Image, HexFault>> {
    let text = text(asked, ">")?.unwrap_or(Vec::new(asked.alloc));
    Ok(read(asked.alloc, &text))
}

/// Tells the image of a text, or its fault.
pub(crate) fn read_text(asked: &Asked<'_, '_>, out: &mut String) -> io::Result<()> {
    match image_of(asked)? {
        Ok(image) => Ok(put_image(&image, out)?),
        Err(fault) => put_fault(out, BuildFault::Hex(fault)),
    }
}

/// How many addresses an image has, and its runs: the first address of each and its bytes.
pub(crate) fn put_image(image: &Image, out: &mut String) -> Result<(), AllocError> {
    write!(out, "count {}", image.count())?;
    let mut next = None;
    for (address, byte) in image.iter() {
        put_byte(address, byte, next != Some(address), out)?;
        if image.at(address) != Some(byte) {
            out.push_str(" (not so by its address)")?;
        }
        next = address.checked_add(1);
    }
    // no row has a byte there
    if image.at(0x8000_0000).is_some() {
        out.push_str("\n80000000 has a byte")?;
    }
    writeln!(out)
}

/// A byte, on a new line and behind its address where it begins a run.
fn put_byte(address: u32, byte: u8, begins: bool, out: &mut String) -> Result<(), AllocError> {
    if begins {
        write!(out, "\n{address:08x}")?;
    }
    write!(out, " {byte:02x}")
}

/// The run of an image from an address on.
pub(crate) fn next_run(asked: &Asked<'_, '_>, out: &mut String) -> io::Result<()> {
    let image = image_of(asked)?.ok().ok_or(ODD)?;
    match image.run_from(asked.hexadecimal(1)?) {
        Some((at, run)) => {
            write!(out, "{at:08x}")?;
            end_with(run, out)?;
        }
        None => out.push_str("none\n")?,
    }
    Ok(())
}

/// The first records of a text: so many times the next.
pub(crate) fn first_records(asked: &Asked<'_, '_>, out: &mut String) -> io::Result<()> {
    let text = text(asked, ">")?.ok_or(ODD)?;
    let mut items = records(&text);
    for _ in 0..number(asked.word(1)?)? {
        match items.next() {
            Some(Ok(record)) => put_record(&record, out)?,
            Some(Err(fault)) => put_fault(out, BuildFault::Hex(fault))?,
            None => out.push_str("none\n")?,
        }
    }
    Ok(())
}

/// The line, type, offset, digits and bytes of a record.
fn put_record(record: &HexLine<'_>, out: &mut String) -> Result<(), AllocError> {
    let (line, kind, offset) = (record.line, record.kind, record.offset);
    write!(
        out,
        "line {line} type {kind:02x} offset {offset:04x} digits "
    )?;
    for digit in record.digits {
        out.push(char::from(*digit))?;
    }
    write!(out, " bytes")?;
    for i in 0..record.digits.len() / 2 {
        write!(out, " {:02x}", record.byte(i))?;
    }
    writeln!(out)
}
