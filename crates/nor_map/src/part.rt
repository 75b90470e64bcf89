//! The parts that a map's text is put together of.

use itoa::Buffer;
use nor_script::hex_number;
use std::alloc::AllocError;

/// A part of a text.
#[derive(Clone, Copy)]
pub(crate) enum Part<'a> {
    /// Text of the image's own.
    Own(&'a [u8]),
    /// Text of any bytes (W3C, Extensible Markup Language 1.0): one that isn't printable ASCII
    /// becomes `?`.
    Any(&'a [u8]),
    /// A number in decimal.
    Number(u64),
    /// How far from the left of the map an edge of an outline is: at the map's sides, which are
    /// 1024 apart, the second number further outwards.
    Side(u64, u64),
    /// An address as eight hexadecimal digits.
    Address(u32),
    /// An offset as four hexadecimal digits, or six.
    Offset(u32),
    /// A number of bytes: in MiB from one on, in KiB from one on, with a tenth where it isn't
    /// whole.
    Size(u64),
}

/// Puts a text, with the next of these parts in place of each `~`.
pub(crate) fn put(out: &mut Vec<u8>, text: &[u8], parts: &[Part<'_>]) -> Result<(), AllocError> {
    let mut next = 0_usize;
    for byte in text {
        if *byte == b'~' {
            put_part(out, parts.get(next))?;
            next = next.saturating_add(1);
        } else {
            out.push(*byte)?;
        }
    }
    Ok(())
}

/// Puts a part, if there is one.
fn put_part(out: &mut Vec<u8>, part: Option<&Part<'_>>) -> Result<(), AllocError> {
    let Some(part) = part else {
        return Ok(());
    };
    match *part {
        Part::Own(bytes) => out.extend_from_slice(bytes),
        Part::Any(bytes) => put_any(out, bytes),
        Part::Number(number) => put_number(out, number),
        Part::Side(x, beyond) => put_side(out, x, beyond),
        Part::Address(address) => out.extend_from_slice(&hex_number(address)),
        Part::Offset(offset) => put_offset(out, offset),
        Part::Size(bytes) => put_size(out, bytes),
    }
}

/// Puts a number in decimal.
fn put_number(out: &mut Vec<u8>, number: u64) -> Result<(), AllocError> {
    out.extend_from_slice(Buffer::new().format(number).as_bytes())
}

/// Puts the place of an edge.
fn put_side(out: &mut Vec<u8>, x: u64, beyond: u64) -> Result<(), AllocError> {
    match x {
        0 if beyond > 0 => {
            out.push(b'-')?;
            put_number(out, beyond)
        }
        1024 => put_number(out, beyond.saturating_add(1024)),
        _ => put_number(out, x),
    }
}

/// Puts an offset.
fn put_offset(out: &mut Vec<u8>, offset: u32) -> Result<(), AllocError> {
    let digits = hex_number(offset);
    out.extend_from_slice(if offset < 0x10000 {
        &digits[4..]
    } else {
        &digits[2..]
    })
}

/// Puts a text of any bytes.
fn put_any(out: &mut Vec<u8>, bytes: &[u8]) -> Result<(), AllocError> {
    for byte in bytes {
        match *byte {
            b'&' => out.extend_from_slice(b"&amp;")?,
            b'<' => out.extend_from_slice(b"&lt;")?,
            b'>' => out.extend_from_slice(b"&gt;")?,
            b'"' => out.extend_from_slice(b"&quot;")?,
            b' '..=b'~' => out.push(*byte)?,
            _ => out.push(b'?')?,
        }
    }
    Ok(())
}

/// Puts a number of bytes.
fn put_size(out: &mut Vec<u8>, bytes: u64) -> Result<(), AllocError> {
    if bytes < 1024 {
        put_number(out, bytes)?;
        out.extend_from_slice(b" bytes")
    } else if bytes < 1048576 {
        put_in_unit(out, bytes, 1024, b" KiB")
    } else {
        put_in_unit(out, bytes, 1048576, b" MiB")
    }
}

/// Puts a number of bytes in a unit, with a tenth where it isn't whole.
fn put_in_unit(out: &mut Vec<u8>, bytes: u64, unit: u32, name: &[u8]) -> Result<(), AllocError> {
    let unit = u64::from(unit.max(1));
    put_number(out, bytes / unit)?;
    if bytes % unit != 0 {
        out.push(b'.')?;
        put_number(out, bytes % unit * 10 / unit)?;
    }
    out.extend_from_slice(name)
}
