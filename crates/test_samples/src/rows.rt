//! Rows of a test, as lines of a text: what is asked, the lines that are handed over with it, and
//! the answer that it is to have.
//!
//! ```text
//! # a comment; empty lines are passed over as well
//! $ words of the row
//! > a line that is handed over
//! a line of the answer
//! ```
//!
//! An answer ends at an empty line, at a comment and at the next row.

use std::alloc::{AllocError, Global};
use std::fmt::Write;
use std::io;

/// A row.
#[derive(Drop)]
pub struct Row<'a> {
    /// The number of its first line, from 1.
    pub line: usize,
    /// What comes after `$ `.
    pub asked: &'a str,
    /// The lines that are handed over, each with its sign `>`.
    pub given: &'a [&'a str],
    /// The lines of the answer.
    pub answer: &'a [&'a str],
}

/// The row whose first line is `lines[at]`, if that line begins one.
pub fn row_at<'a>(lines: &'a [&'a str], at: usize) -> Option<Row<'a>> {
    let (first, rest) = lines.get(at..)?.split_first()?;
    let asked = first.strip_prefix("$ ")?;
    let (given, rest) = split_where(rest, false);
    let (answer, _) = split_where(rest, true);
    Some(Row {
        line: at.wrapping_add(1),
        asked,
        given,
        answer,
    })
}

/// The lines before the first that isn't handed over, or, for an answer, before the first that ends
/// it; and the others.
fn split_where<'a>(lines: &'a [&'a str], answer: bool) -> (&'a [&'a str], &'a [&'a str]) {
    for (at, line) in lines.iter().enumerate() {
        let ends = line.is_empty() || line.starts_with('#') || line.starts_with("$ ");
        if ends || !answer && !line.starts_with('>') {
            return lines.split_at(at);
        }
    }
    (lines, &[])
}

/// What does rows.
pub trait Answers {
    /// Does a row, and puts the lines of its answer behind `out`; the last may be without its LF.
    fn answer(&mut self, row: &Row<'_>, out: &mut String) -> io::Result<()>;
}

/// Does the rows of a file's text in turn, and says what came of them: of each row that has another
/// answer the number of its line, and both; of each line of no row its number; and last how many
/// rows are answered as they say.
pub fn told<A: Answers>(
    alloc: Global,
    name: &str,
    text: &str,
    bench: &mut A,
) -> Result<String, AllocError> {
    let lines: Vec<&str> = text.lines().collect(alloc)?;
    let mut out = String::new(alloc);
    let (mut right, mut next) = (0u32, 0usize);
    for (at, line) in lines.iter().enumerate() {
        if at < next || line.is_empty() || line.starts_with('#') {
            continue;
        }
        if let Some(row) = row_at(lines.as_slice(), at) {
            let more = row.given.len().saturating_add(row.answer.len());
            next = row.line.saturating_add(more);
            right = right.saturating_add(u32::from(is_right(alloc, name, &row, bench, &mut out)?));
        } else {
            writeln!(out, "{name} line {}: of no row", at.saturating_add(1))?;
        }
    }
    writeln!(out, "{name} {right} rows")?;
    Ok(out)
}

/// Whether a row has the answer that it says, whose last line may be without its LF; otherwise both
/// are put.
fn is_right<A: Answers>(
    alloc: Global,
    name: &str,
    row: &Row<'_>,
    bench: &mut A,
    out: &mut String,
) -> Result<bool, AllocError> {
    let mut found = String::new(alloc);
    if let Err(fault) = bench.answer(row, &mut found) {
        writeln!(found, "not done: {fault}")?;
    }
    if !found.is_empty() && !found.as_str().ends_with('\n') {
        found.push_str("\n")?;
    }
    let mut want = String::new(alloc);
    for line in row.answer {
        want.push_str(line)?;
        want.push_str("\n")?;
    }
    let right = found.as_str() == want.as_str();
    if !right {
        write!(
            out,
            "{name} line {}: found\n{found}and not\n{want}",
            row.line
        )?;
    }
    Ok(right)
}
