//! What chips are, and what may be done with them.

use crate::samples::{Sample, meaning_of};
use nor_base::{Meaning, Start};
use nor_chip::may_program;
use nor_geometry::is_legal;
use std::alloc::AllocError;
use std::fmt::Write;
use std::io;
use test_samples::meanings::{put_instructions, put_kind};
use test_samples::words::{ODD, byte, hexadecimal, number};

/// Says what the uniform chip of a size is, if there is one.
pub(crate) fn tell_uniform(words: &str, out: &mut String) -> io::Result<()> {
    match Meaning::uniform(number(words)?) {
        Some(meaning) => tell(&meaning, out),
        None => Ok(writeln!(out, "none")?),
    }
}

/// Says what a chip is, nearly as `norprog sfdp` does.
pub(crate) fn tell(meaning: &Meaning, out: &mut String) -> io::Result<()> {
    tell_sizes(meaning, out)?;
    tell_width(meaning, out)?;
    tell_kinds(meaning, out)?;
    put_instructions(meaning, out)?;
    for region in meaning.regions.iter() {
        write!(out, "region {} {} of", region.size, region.kinds)?;
        end_with_kinds(|kind| region.allows(kind), out)?;
    }
    Ok(())
}

/// The bytes of the chip and of its page.
fn tell_sizes(meaning: &Meaning, out: &mut String) -> Result<(), AllocError> {
    let more = if meaning.open_page { " or more" } else { "" };
    writeln!(out, "size {}\npage {}{more}", meaning.size, meaning.page)
}

/// The bytes of its addresses, and whether it begins with four, by the mode that it is found in.
fn tell_width(meaning: &Meaning, out: &mut String) -> Result<(), AllocError> {
    let fours = [false, true].map(|mode4| meaning.begins4(&Start { mode4, quad: false }));
    let width = meaning.width;
    writeln!(out, "address {width:?}, four-byte first {fours:?}")
}

/// The erase kinds that are there: the bytes of a block, the opcode and the dedicated one. Then all
/// that some region allows.
fn tell_kinds(meaning: &Meaning, out: &mut String) -> Result<(), AllocError> {
    for kind in 0..=255u8 {
        let size = meaning.block_size(kind);
        match meaning.erase_kind(kind) {
            Some(erase) => put_kind(kind, size, erase, out)?,
            None if size > 0 => writeln!(out, "erase {kind} {size} of none")?,
            None => {}
        }
    }
    write!(out, "allowed")?;
    end_with_kinds(|kind| meaning.is_allowed(kind), out)
}

/// Ends a line with the erase kinds for which something is so.
fn end_with_kinds<Is: Fn(u8) -> bool>(is: Is, out: &mut String) -> Result<(), AllocError>
    requires { Is.IsAlwaysCallable is }
{
    for kind in 0..=255u8 {
        if is(kind) {
            write!(out, " {kind}")?;
        }
    }
    writeln!(out)
}

/// Says which of the words behind `of` are pages that a chip may have, addresses at which a legal
/// block of a kind starts, or bytes that may be programmed over a byte.
pub(crate) fn filter(all: &[Sample], kind: &str, words: &str, out: &mut String) -> io::Result<()> {
    let (subject, words) = words.split_once(" of ").ok_or(ODD)?;
    let (name, over) = subject.split_once(' ').unwrap_or((subject, ""));
    let meaning = meaning_of(all, name)?;
    out.push_str(kind)?;
    for word in words.split_whitespace() {
        if is_so(meaning, kind, over, word)? {
            out.push(' ')?;
            out.push_str(word)?;
        }
    }
    Ok(out.push('\n')?)
}

/// Whether a word is a page, the address of a legal block of the kind `over` or a byte that may be
/// programmed over the byte `over`.
fn is_so(meaning: &Meaning, kind: &str, over: &str, word: &str) -> io::Result<bool> {
    Ok(match kind {
        "pages" => meaning.may_page(number(word)?),
        "legal" => is_legal(meaning, byte(over)?, hexadecimal(word)?),
        _ => may_program(meaning, byte(over)?, byte(word)?),
    })
}
