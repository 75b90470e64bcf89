//! Scripts as texts.

use crate::steps::steps_of;
use crate::words::{end_with, handed};
use nor_base::{IntoWrite, Step, is_step};
use nor_script::{ScriptFault, begin, finish, read, write_step};
use std::alloc::{AllocError, Global};
use std::fmt::Write;
use std::io;
use test_samples::rows::Row;
use test_samples::words::{ODD, byte};

/// The steps of the text that the lines are, or its fault.
pub(crate) fn read_text(alloc: Global, given: &[&str], out: &mut String) -> io::Result<()> {
    let text = text_of(alloc, given)?;
    Ok(match read(alloc, text.as_slice()) {
        Ok(steps) => tell_steps(steps.as_slice(), out)?,
        Err(fault) => writeln!(out, "{fault:?}")?,
    })
}

/// How many steps there are, and each of them.
fn tell_steps(steps: &[Step], out: &mut String) -> Result<(), AllocError> {
    writeln!(out, "{} steps", steps.len())?;
    for step in steps {
        tell_step(step, out)?;
    }
    Ok(())
}

/// A step's kind and clocks, and the bytes that it expects.
fn tell_step(step: &Step, out: &mut String) -> Result<(), AllocError> {
    match step {
        Step::Send { clocks } => writeln!(out, "send {}", text(clocks.as_slice())),
        Step::Poll { clocks } => writeln!(out, "poll {}", text(clocks.as_slice())),
        Step::Verify { clocks, expect } => {
            write!(out, "verify {} for ", text(clocks.as_slice()))?;
            end_with(expect.as_slice(), out)
        }
    }
}

/// Bytes as text.
pub(crate) fn text<'b>(bytes: &'b [u8]) -> &'b str {
    str::from_utf8(bytes).unwrap_or("no text")
}

/// The length of each front of the text that is answered otherwise than the one before it, and its
/// answer: the number of steps or its fault.
pub(crate) fn read_fronts(alloc: Global, given: &[&str], out: &mut String) -> io::Result<()> {
    let text = text_of(alloc, given)?;
    let mut before = None;
    for taken in 0..=text.len() {
        let answer = count_of(alloc, text.get(..taken).unwrap_or(&[]));
        if before != Some(answer) {
            before = Some(answer);
            tell_front(taken, answer, out)?;
        }
    }
    Ok(())
}

/// The number of a text's steps, or its fault.
fn count_of(alloc: Global, text: &[u8]) -> Result<usize, ScriptFault> {
    Ok(read(alloc, text)?.len())
}

/// The length of a front, and its answer.
fn tell_front(
    taken: usize,
    answer: Result<usize, ScriptFault>,
    out: &mut String,
) -> Result<(), AllocError> {
    match answer {
        Ok(count) => writeln!(out, "{taken} {count} steps"),
        Err(fault) => writeln!(out, "{taken} {fault:?}"),
    }
}

/// The text of the lines: an LF behind each that doesn't end with a backslash.
fn text_of(alloc: Global, given: &[&str]) -> io::Result<Vec<u8>> {
    let mut text = Vec::new(alloc);
    for line in given {
        let line = handed(line)?;
        push_line(&mut text, line.strip_suffix('\\').unwrap_or(line))?;
        if !line.ends_with('\\') {
            text.push(b'\n')?;
        }
    }
    Ok(text)
}

/// A line, in which `\xHH` is a byte.
fn push_line(text: &mut Vec<u8>, line: &str) -> io::Result<()> {
    let mut parts = line.split('\\');
    text.extend_from_slice(parts.next().unwrap_or("").as_bytes())?;
    for part in parts {
        let escaped = part
            .strip_prefix('x')
            .and_then(|part| part.split_at_checked(2));
        let (digits, rest) = escaped.ok_or(ODD)?;
        text.push(byte(digits)?)?;
        text.extend_from_slice(rest.as_bytes())?;
    }
    Ok(())
}

/// Whether each step has a line in a script.
pub(crate) fn tell_writable(alloc: Global, given: &[&str], out: &mut String) -> io::Result<()> {
    for step in steps_of(alloc, given)?.iter() {
        writeln!(out, "{}", is_step(step))?;
    }
    Ok(())
}

/// The text of steps that have a line; where a word says so, with another number in its end line.
pub(crate) fn write_all(alloc: Global, row: &Row<'_>, out: &mut String) -> io::Result<()> {
    let count = match row.asked {
        "" => row.given.len() as u64,
        word => word.parse::<u64>().ok().ok_or(ODD)?,
    };
    let steps = steps_of(alloc, row.given)?;
    let mut writer = IntoWrite::new(Vec::new(alloc));
    if !write_script(steps.as_slice(), count, &mut writer) {
        return Err(ODD.into());
    }
    Ok(out.push_str(text(writer.inner.as_slice()))?)
}

/// Writes steps and the number of the end line, and says whether each step has a line and all was
/// written.
fn write_script(steps: &[Step], count: u64, writer: &mut IntoWrite<Vec<u8>>) -> bool {
    let mut well = begin(writer).is_ok();
    for step in steps {
        well = well && is_step(step) && write_step(step, writer).is_ok();
    }
    well && finish(count, writer).is_ok()
}
