//! The reader of listings.

ghost use Rattle.std.specs.Prelude.{◌≡◌, ◌≤◌, ℕ, List, [], length, IfOk, IfErr, MatchOption};
ghost use Rattle.nor_base.specs.Chip.{begins4};
ghost use Rattle.nor_listing.specs.Read.{IsListingOf, Refuses, mode_through};
ghost use Rattle.nor_listing.specs.Told.{Says, SaysNone, SaysNoneOf, SaysLine, SaysNoLine, AreRead};
ghost use Rattle.nor_listing.specs.Told.{BeginsNone, numbered};
ghost use Rattle.nor_listing.specs.declared.fault.ListFault.TheVariants.{Memory};

use crate::fault::ListFault;
use crate::listable::is_listable;
use crate::memory::{first_line as chip_line, last_line, words_of};
use crate::told::step_told;
use itoa::Buffer;
use nor_base::{Meaning, Start, Step};
use nor_laws::spelling;
use nor_script::first_line;
use std::alloc::{AllocError, Global};

/// A step that was read, and the address mode after it.
#[derive(Drop)]
struct Read {
    step: Step,
    after: bool,
}

/// Reads a listing: exactly the texts that [`crate::write_listing`] writes for this meaning and
/// start. Memory is taken for the steps and for one line.
///
/// `BadLine` has the number, counted from 1, of the first line that a listing hasn't there, which
/// may be the line after the text. `Memory` where a growth is refused.
pub fn read_listing(
    alloc: Global,
    meaning: &Meaning,
    start: &Start,
    text: &[u8],
) -> Result<Vec<Step>, ListFault>
    ensures read { IfOk result
        (λ steps. IsListingOf meaning.now (begins4 meaning.now start.now) text.now steps.items) }
    ensures refused { IfErr result (Refuses meaning.now (begins4 meaning.now start.now) text.now) }
{
    let mode4 = meaning.begins4(start);
    let first = chip_line(alloc, meaning, mode4)?;
    let Some(lines) = text.strip_prefix(first.as_slice()) else {
        return Err(ListFault::BadLine(1));
    };
    let mut steps = Vec::new(alloc);
    let rest = read_lines(alloc, meaning, mode4, lines, &mut steps)?;
    let count = steps.len() as u64;
    let last = last_line(alloc, count)?;
    match rest.strip_prefix(last.as_slice()) {
        Some(more) if more.is_empty() => Ok(steps),
        Some(_) => Err(ListFault::BadLine(count + 3)),
        None => Err(ListFault::BadLine(count + 2)),
    }
}

/// Reads the lines of steps, up to the first line that is none.
fn read_lines<'a>(
    alloc: Global,
    meaning: &Meaning,
    first: bool,
    text: &'a [u8],
    steps: &mut Vec<Step>,
) -> Result<&'a [u8], ListFault>
    requires { steps.old.items ≡ [] }
    ensures read { IfOk result
        (λ rest. AreRead meaning.now first text.now steps.new.items rest.now) }
    ensures last { IfOk result (λ rest. BeginsNone meaning.now (length steps.new.items)
        (mode_through meaning.now first steps.new.items) rest.now) }
    ensures refused { IfErr result (λ fault. fault ≡ Memory) }
{
    let mut mode4 = first;
    let mut rest = text;
    while let Some((line, more)) = first_line(rest) {
        let Some(read) = read_line(alloc, meaning, steps.len() as u64, mode4, line)? else {
            return Ok(rest);
        };
        steps.push(read.step)?;
        mode4 = read.after;
        rest = more;
    }
    Ok(rest)
}

/// The step of a line.
fn read_line(
    alloc: Global,
    meaning: &Meaning,
    number: u64,
    mode4: bool,
    line: &[u8],
) -> Result<Option<Read>, AllocError>
    ensures { IfOk result (λ found. MatchOption found (SaysNoLine meaning.now number mode4 line.now)
        (SaysLine meaning.now number mode4 line.now)) }
{
    match words_on(number, line) {
        Some(words) => read_words(alloc, meaning, mode4, words),
        None => Ok(None),
    }
}

/// The words of a line that begins with a number and a blank.
fn words_on(number: u64, line: &[u8]) -> Option<&[u8]>
    ensures { MatchOption result ((words : List ℕ) → line.now ≡ numbered number words → ⊥)
        (λ words. line.now ≡ numbered number words.now) }
{
    let mut digits = Buffer::new();
    let Some(rest) = line.strip_prefix(digits.format(number).as_bytes()) else {
        return None;
    };
    rest.strip_prefix(b" ")
}

/// The step of these words.
fn read_words(
    alloc: Global,
    meaning: &Meaning,
    mode4: bool,
    words: &[u8],
) -> Result<Option<Read>, AllocError>
    ensures { IfOk result (λ found. MatchOption found (SaysNone meaning.now mode4 words.now)
        (λ read. Says meaning.now mode4 words.now read.step read.after)) }
{
    match read_as(alloc, meaning, mode4, 3, words)? {
        Some(read) => Ok(Some(read)),
        None => read_as(alloc, meaning, mode4, 4, words),
    }
}

/// The step of these words, where its instruction takes this number of address bytes or none.
fn read_as(
    alloc: Global,
    meaning: &Meaning,
    mode4: bool,
    width: u8,
    words: &[u8],
) -> Result<Option<Read>, AllocError>
    requires { width ≤ 4 }
    ensures { IfOk result (λ found. MatchOption found (SaysNoneOf meaning.now mode4 words.now width)
        (λ read. Says meaning.now mode4 words.now read.step read.after)) }
{
    spelling();
    let Some(step) = step_told(alloc, meaning, width, words)? else {
        return Ok(None);
    };
    if !is_listable(&step) {
        return Ok(None);
    }
    let (told, after) = words_of(alloc, meaning, mode4, &step)?;
    let Some(said) = told.as_slice().strip_suffix(b"\n") else {
        return Ok(None);
    };
    if said == words {
        Ok(Some(Read { step, after }))
    } else {
        Ok(None)
    }
}
