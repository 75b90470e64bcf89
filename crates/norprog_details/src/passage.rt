//! The line of a file at which a refusal is.

use crate::subject::ends_in;
use crate::text::add;
use bstr::ByteSlice;
use itoa::Buffer;
use std::alloc::AllocError;

/// As many bytes of a line are shown.
const COLUMNS: usize = 80;

/// The line of a text at which the line of a refusal is, with its number, from 1 on.
pub(crate) fn passage_of<'a>(refusal: &[u8], text: &'a [u8]) -> Option<(u64, &'a [u8])> {
    let mut number: u64 = 0;
    for line in text.lines() {
        number = number.saturating_add(1);
        if ends_in(refusal, b" line ", number) {
            return Some((number, line));
        }
    }
    None
}

/// Adds a line with its number: its first 80 bytes, with a full stop for each that is no printable
/// ASCII.
pub(crate) fn shown_line(number: u64, line: &[u8], said: &mut Vec<u8>) -> Result<(), AllocError> {
    let mut digits = Buffer::new();
    let digits = digits.format(number).as_bytes();
    add(said, &[b"line ", digits, b": "])?;
    for byte in front(line, COLUMNS) {
        said.push(shown(*byte))?;
    }
    add(said, &[b"\n"])
}

/// The first bytes of some, at most so many.
pub(crate) fn front(bytes: &[u8], most: usize) -> &[u8] {
    bytes.get(..most).unwrap_or(bytes)
}

/// Printable ASCII as it is, else a full stop.
fn shown(byte: u8) -> u8 {
    if 0x20 <= byte && byte < 0x7F {
        byte
    } else {
        b'.'
    }
}
