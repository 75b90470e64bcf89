//! How a command ended, as a JSON object (RFC 8259).

use bstr::ByteSlice;
use json::Writer;
use std::alloc::{AllocError, Global};

/// How a command ended, as a JSON object in one line, closed by LF (docs/FORMATS.md, section 9):
/// its name, its status, for how long it ran, the last line on standard error without its LF, and
/// what went to standard output, if that was kept.
pub(crate) fn object_of(
    alloc: Global,
    command: &str,
    status: u8,
    millis: Option<u64>,
    refusal: &[u8],
    text: Option<&[u8]>,
) -> Result<Vec<u8>, AllocError> {
    let mut writer = Writer::new(Vec::new(alloc));
    writer.begin_object()?;
    writer.key("command")?;
    writer.string(command)?;
    writer.key("status")?;
    writer.u64(u64::from(status))?;
    writer.key("milliseconds")?;
    write_number(&mut writer, millis)?;
    writer.key("refusal")?;
    write_refusal(alloc, &mut writer, status, refusal)?;
    writer.key("lines")?;
    write_lines(alloc, &mut writer, text)?;
    writer.end_object()?;
    let mut object = writer.into_inner();
    object.push(b'\n')?;
    Ok(object)
}

/// Writes a number, if there is one, else null.
fn write_number(writer: &mut Writer<Global>, number: Option<u64>) -> Result<(), AllocError> {
    match number {
        Some(number) => writer.u64(number),
        None => writer.null(),
    }
}

/// Writes the words of the refusal without the program's name; null where the command is done.
fn write_refusal(
    alloc: Global,
    writer: &mut Writer<Global>,
    status: u8,
    line: &[u8],
) -> Result<(), AllocError> {
    match line.strip_prefix(b"norprog: ") {
        Some(words) if status != 0 => write_text(alloc, writer, words),
        _ => writer.null(),
    }
}

/// Writes each line of a text as an array of its words; null where the text wasn't kept.
fn write_lines(
    alloc: Global,
    writer: &mut Writer<Global>,
    text: Option<&[u8]>,
) -> Result<(), AllocError> {
    let Some(text) = text else {
        return writer.null();
    };
    writer.begin_array()?;
    for line in text.lines() {
        write_words(alloc, writer, line)?;
    }
    writer.end_array()
}

/// Writes the words of a line, which blanks keep apart, as an array.
fn write_words(alloc: Global, writer: &mut Writer<Global>, line: &[u8]) -> Result<(), AllocError> {
    writer.begin_array()?;
    for word in line.split(|byte| *byte == b' ') {
        if !word.is_empty() {
            write_text(alloc, writer, word)?;
        }
    }
    writer.end_array()
}

/// Writes a text; what is no UTF-8 as U+FFFD.
fn write_text(alloc: Global, writer: &mut Writer<Global>, text: &[u8]) -> Result<(), AllocError> {
    let text = String::from_utf8_lossy(alloc, text)?;
    writer.string(text.as_str())
}
