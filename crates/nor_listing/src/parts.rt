//! The parts of a line's words.

ghost use Rattle.std.specs.Prelude.{◌≡◌, ◌==◌, position, option_map};
ghost use Rattle.nor_listing.specs.Parts.{address_on, count_on, counted_on, cut, data_after};
ghost use Rattle.nor_listing.specs.Parts.{data_at, data_on, is_bare};
ghost use Rattle.nor_listing.specs.Parts.{opcode_on, place_at, place_on, word_in};

use crate::digits::{byte_of, decimal_of, number_of};

/// The first word, or what kind it is of.
#[derive(Clone, Copy, Drop)]
pub(crate) enum Word {
    /// A poll of the status.
    Poll,
    /// The line of a script comes next.
    Copy,
    /// Only an opcode comes next.
    Bare,
    Status,
    Erase,
    Program,
    QuadProgram,
    Read,
    QuadRead,
    Verify,
    QuadVerify,
}

/// Opcode and address, and what comes after them.
#[derive(Clone, Copy)]
pub(crate) struct Place<'a> {
    pub(crate) op: u8,
    pub(crate) address: u32,
    pub(crate) after: &'a [u8],
}

/// Opcode, address, a number of bytes, and the digits of bytes.
#[derive(Clone, Copy)]
pub(crate) struct Data<'a> {
    pub(crate) place: Place<'a>,
    pub(crate) count: u64,
    pub(crate) digits: &'a [u8],
}

/// What is before the first blank, and what is after it: all, and nothing, where there is none.
pub(crate) fn cut(text: &[u8]) -> (&[u8], &[u8])
    ensures { (result.0.now, result.1.now) ≡ cut text.now }
{
    match blank_of(text) {
        Some(blank) => (&text[..blank], &text[blank + 1..]),
        None => (text, &[]),
    }
}

/// Where the first blank is.
fn blank_of(text: &[u8]) -> Option<usize>
    ensures { result ≡ position (λ byte. byte == 0x20) text.now }
{
    text.iter().position(|byte| *byte == b' ')
}

/// A word.
pub(crate) fn word_of(text: &[u8]) -> Option<Word>
    ensures { result ≡ word_in text.now }
{
    if is_bare(text) {
        Some(Word::Bare)
    } else if text == b"poll".as_slice() {
        Some(Word::Poll)
    } else if text == b"status".as_slice() {
        Some(Word::Status)
    } else if text == b"erase".as_slice() {
        Some(Word::Erase)
    } else if text == b"program".as_slice() {
        Some(Word::Program)
    } else if text == b"quadprogram".as_slice() {
        Some(Word::QuadProgram)
    } else if text == b"read".as_slice() {
        Some(Word::Read)
    } else if text == b"quadread".as_slice() {
        Some(Word::QuadRead)
    } else if text == b"verify".as_slice() {
        Some(Word::Verify)
    } else if text == b"quadverify".as_slice() {
        Some(Word::QuadVerify)
    } else if text == b"broken".as_slice() || text == b"unknown".as_slice() {
        Some(Word::Copy)
    } else {
        None
    }
}

/// Whether only an opcode comes after a word.
fn is_bare(text: &[u8]) -> bool
    ensures { result ≡ is_bare text.now }
{
    text == b"enable".as_slice()
        || text == b"disable".as_slice()
        || text == b"enter".as_slice()
        || text == b"leave".as_slice()
}

/// `OO`, and what comes after it.
pub(crate) fn opcode_of(text: &[u8]) -> Option<Place<'_>>
    ensures { option_map place_at result ≡ opcode_on text.now }
{
    let (digits, after) = text.split_at_checked(2)?;
    Some(Place {
        op: byte_of(digits)?,
        address: 0,
        after,
    })
}

/// `OO AAAAAAAA`, and what comes after it.
pub(crate) fn place_of(text: &[u8]) -> Option<Place<'_>>
    ensures { option_map place_at result ≡ place_on text.now }
{
    match opcode_of(text) {
        Some(first) => address_of(first),
        None => None,
    }
}

/// The same, after an opcode.
fn address_of<'a>(first: Place<'a>) -> Option<Place<'a>>
    ensures { option_map place_at result ≡ address_on (place_at first.entry) }
{
    let (text, after) = first.after.split_at_checked(9)?;
    Some(Place {
        op: first.op,
        address: number_of(&text[1..])?,
        after,
    })
}

/// ` n` or ` n HEX`: the number, and the digits of the bytes.
fn counted(text: &[u8]) -> Option<(u64, &[u8])>
    ensures { option_map (λ c. (c.0, c.1.now)) result ≡ counted_on text.now }
{
    let (_blank, text) = text.split_at_checked(1)?;
    let (count, digits) = cut(text);
    Some((decimal_of(count)?, digits))
}

/// The same, after a place.
pub(crate) fn data_of<'a>(place: Place<'a>) -> Option<Data<'a>>
    ensures { option_map data_at result ≡ data_after (place_at place.entry) }
{
    match counted(place.after) {
        Some((count, digits)) => Some(Data {
            place,
            count,
            digits,
        }),
        None => None,
    }
}

/// `OO AAAAAAAA n` or `OO AAAAAAAA n HEX`.
pub(crate) fn data_on(text: &[u8]) -> Option<Data<'_>>
    ensures { option_map data_at result ≡ data_on text.now }
{
    match place_of(text) {
        Some(place) => data_of(place),
        None => None,
    }
}
