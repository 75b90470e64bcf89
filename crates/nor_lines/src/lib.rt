//! The lines of a text, cut and trimmed, with their numbers.
//!
//! A line feed ends a line, and the last one may be missing; a line feed at the text's end starts
//! no further line. Blanks are spaces, tabs and carriage returns. No public standard speaks of
//! this: these rules are this project's, for each text that it reads.
#![tactic(auto)]

ghost use Rattle.std.specs.Prelude.{◌≡◌, ℕ, ◌+◌, ◌^◌, ◌<◌, List, length};
ghost use Rattle.std.specs.Iterator.{YieldsFirstBy, item_count};
ghost use Rattle.nor_lines.specs.Lines.{is_blank, without_first_blanks, trimmed, lines_of_text};
ghost use Rattle.nor_lines.specs.Lines.{filled_from, filled_lines};

use bstr::{ByteSlice, Lines};
use std::marker::Model;

/// The lines of a text that are not blank, each with its number among all lines, from 1, and
/// without the blanks at its end. Clauses see an iterator as the list of what it has left.
#[derive(Drop)]
pub struct FilledLines<'a> {
    lines: Lines<'a>,
    before: u64,
}

impl<'a> Model for FilledLines<'a> {
    ghost Value = { List (ℕ × List ℕ) };

    ghost view = { λ s. filled_from (s.before + 1) s.lines };

    ghost invariant = { λ s. s.before + length s.lines < 2 ^ 63 };
}

impl<'a> Iterator for FilledLines<'a> {
    type Item = (u64, &'a [u8]);

    ghost next_gives = { YieldsFirstBy (λ line. (line.0, line.1.now)) (λ rest. rest) };

    ghost remaining = { item_count (λ rest. rest) };

    fn next(&mut self) -> Option<(u64, &'a [u8])> {
        while let Some(line) = self.lines.next() {
            self.before += 1;
            let line = without_last_blanks(line);
            if !line.is_empty() {
                return Some((self.before, line));
            }
        }
        None
    }
}

/// The lines of a text that are not blank, in their order: each with its number, counted from 1
/// with the blank ones, and without the blanks at its end. Blanks at a line's start stay. It takes
/// no memory.
pub fn filled(text: &[u8]) -> FilledLines<'_>
    ensures { result ≡ filled_lines text.now }
{
    FilledLines {
        lines: text.lines(),
        before: 0,
    }
}

/// The number of lines of a text, blank ones too; it is below 2^63.
pub fn line_count(text: &[u8]) -> u64
    ensures count { result ≡ length (lines_of_text text.now) }
    ensures fits { result < 2 ^ 63 }
{
    text.lines().count() as u64
}

/// A line from its first byte that is no blank on.
pub fn without_first_blanks(line: &[u8]) -> &[u8]
    ensures { result.now ≡ without_first_blanks line.now }
{
    let mut rest = line;
    while let [first, others @ ..] = rest
        && is_blank(*first)
    {
        rest = others;
    }
    rest
}

/// A line up to its last byte that is no blank.
fn without_last_blanks(line: &[u8]) -> &[u8]
    ensures { result.now ≡ trimmed line.now }
{
    let mut rest = line;
    while let [others @ .., last] = rest
        && is_blank(*last)
    {
        rest = others;
    }
    rest
}

/// Whether a byte is a space, a tab or a carriage return.
fn is_blank(byte: u8) -> bool
    ensures { result ≡ is_blank byte }
{
    matches!(byte, b' ' | b'\t' | b'\r')
}
