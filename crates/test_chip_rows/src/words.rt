//! The words of rows: bytes and clocks.

use std::alloc::{AllocError, Global};
use std::fmt::Write;
use std::io;
use test_samples::words::{ODD, number};

/// What comes after the sign of a line that is handed over.
pub(crate) fn handed<'a>(line: &'a str) -> io::Result<&'a str> {
    if line == ">" {
        return Ok("");
    }
    Ok(line.strip_prefix("> ").ok_or(ODD)?)
}

/// The bytes that words of digits spell: two digits each, and `HH*N` is N of them.
pub(crate) fn bytes_of(alloc: Global, words: &str) -> io::Result<Vec<u8>> {
    let mut bytes = Vec::new(alloc);
    for word in words.split_whitespace() {
        let (digits, times) = word.split_once('*').unwrap_or((word, "1"));
        let digits = digits.repeat(alloc, number(times)? as usize)?;
        bytes.extend_from_slice(&hex::decode(alloc, digits.as_str()).ok().ok_or(ODD)?)?;
    }
    Ok(bytes)
}

/// The clocks of a transaction: bytes that are sent on one lane and, behind a `|`, symbols.
pub(crate) fn clocks_of(alloc: Global, line: &str) -> io::Result<Vec<u8>> {
    let (sent, symbols) = line.split_once('|').unwrap_or((line, ""));
    let mut clocks = String::new(alloc);
    for byte in bytes_of(alloc, sent)?.iter() {
        write!(clocks, "{byte:08b}")?;
    }
    clocks.push_str(symbols.trim())?;
    Ok(clocks.into_bytes())
}

/// Ends a line with bytes.
pub(crate) fn end_with(bytes: &[u8], out: &mut String) -> Result<(), AllocError> {
    let mut before = "";
    for byte in bytes {
        write!(out, "{before}{byte:02x}")?;
        before = " ";
    }
    writeln!(out)
}
