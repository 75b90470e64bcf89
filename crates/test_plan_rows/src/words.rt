//! The words of a row, and the texts that it hands over.

use crate::bench::Asked;
use std::alloc::{AllocError, Global};
use std::io;
use test_samples::words::{ODD, byte, number};

/// The bytes of pairs of hexadecimal digits.
pub(crate) fn bytes(alloc: Global, digits: &str) -> io::Result<Vec<u8>> {
    Ok(hex::decode(alloc, digits).ok().ok_or(ODD)?)
}

/// Ends a line with bytes, each behind a blank.
pub(crate) fn end_with(bytes: &[u8], out: &mut String) -> Result<(), AllocError> {
    for byte in bytes {
        write!(out, " {byte:02x}")?;
    }
    writeln!(out)
}

/// The words of a line that is handed over, behind its sign.
pub(crate) fn line_words<'l>(alloc: Global, line: &'l str) -> io::Result<Vec<&'l str>> {
    let line = line.strip_prefix('>').ok_or(ODD)?;
    Ok(line.split_whitespace().collect(alloc)?)
}

/// What a word with escapes stands for.
pub(crate) fn unescaped(alloc: Global, word: &str) -> io::Result<Vec<u8>> {
    let mut bytes = Vec::new(alloc);
    put_escaped(&mut bytes, word, 0)?;
    Ok(bytes)
}

/// The text of the lines that are handed over with a sign, `>` or `>>`; none where there is no such
/// line. A number behind the sign says how often the line stands there. `\t`, `\r`, `\xHH` and `\#`
/// are escapes; a backslash at a line's end takes its LF away.
pub(crate) fn text(asked: &Asked<'_, '_>, sign: &str) -> io::Result<Option<Vec<u8>>> {
    let mut text = Vec::new(asked.alloc);
    let mut is_there = false;
    for line in asked.given {
        let (head, line) = line.split_once(' ').unwrap_or((*line, ""));
        let times = head.trim_start_matches('>');
        if head.len() == times.len().saturating_add(sign.len()) {
            is_there = true;
            put_times(&mut text, times, line)?;
        }
    }
    Ok(is_there.then_some(text))
}

/// Puts a line so many times, once where no number says it.
fn put_times(text: &mut Vec<u8>, times: &str, line: &str) -> io::Result<()> {
    let times = if times.is_empty() { 1 } else { number(times)? };
    for time in 0..times {
        put_escaped(text, line, time)?;
        if !line.ends_with('\\') {
            text.push(b'\n')?;
        }
    }
    Ok(())
}

/// Puts what a line with escapes stands for.
fn put_escaped(text: &mut Vec<u8>, line: &str, time: u32) -> io::Result<()> {
    let mut pieces = line.split('\\');
    text.extend_from_slice(pieces.next().unwrap_or("").as_bytes())?;
    for piece in pieces {
        let rest = put_escape(text, piece, time)?;
        text.extend_from_slice(rest.as_bytes())?;
    }
    Ok(())
}

/// Puts what an escape stands for, and returns what comes after it.
fn put_escape<'a>(text: &mut Vec<u8>, piece: &'a str, time: u32) -> io::Result<&'a str> {
    let Some((letter, rest)) = piece.split_at_checked(1) else {
        return Ok("");
    };
    match letter {
        "t" => text.push(b'\t')?,
        "r" => text.push(b'\r')?,
        "#" => put_time(text, time)?,
        "x" => return put_byte(text, rest),
        _ => return Err(ODD.into()),
    }
    Ok(rest)
}

/// Puts a number in hexadecimal.
fn put_time(text: &mut Vec<u8>, time: u32) -> Result<(), AllocError> {
    let digits = format!(in *text.allocator(); "{time:x}")?;
    text.extend_from_slice(digits.as_bytes())
}

/// Puts the byte of two digits, and returns what comes after them.
fn put_byte<'a>(text: &mut Vec<u8>, rest: &'a str) -> io::Result<&'a str> {
    let (digits, rest) = rest.split_at_checked(2).ok_or(ODD)?;
    text.push(byte(digits)?)?;
    Ok(rest)
}
