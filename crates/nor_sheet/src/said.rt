//! What one line of a sheet says.

ghost use Rattle.std.specs.Prelude.{◌≡◌, ◌<◌, IfOk, IfSome, map};
ghost use Rattle.std.specs.List.{list_all, list_any};
ghost use Rattle.nor_sheet.specs.Limits.{IsSaid, is_erase_size, is_kind};
ghost use Rattle.nor_sheet.specs.Limits.{is_page, is_size};
ghost use Rattle.nor_sheet.specs.Said.{address_said, dedicated_said, erase_said};
ghost use Rattle.nor_sheet.specs.Said.{is_dedicated, names, op4_of, page_by, page_said};
ghost use Rattle.nor_sheet.specs.Said.{quad_read_by, quad_read_said, region_said, size_said};
ghost use Rattle.nor_sheet.specs.Said.{switch_said};
ghost use Rattle.nor_sheet.specs.Number.{byte_of, number_of};

use crate::fault::LineFault;
use crate::number::{byte_of, number_of};
use nor_base::{Erase, QuadRead, Region, Switch, Width};

/// A page of a sheet.
#[derive(Clone, Copy)]
pub struct Page {
    /// Bytes.
    pub size: u32,
    /// It is only known to be that large or larger.
    pub open_page: bool,
}

/// Which four-byte address instructions a sheet offers.
#[derive(Clone, Copy)]
pub struct Dedicated {
    /// The read by 13h.
    pub read4: bool,
    /// The 1-1-4 fast read by 6Ch.
    pub quad_read4: bool,
    /// The program by 12h.
    pub program4: bool,
    /// The quad program by 34h.
    pub quad4: bool,
}

/// What one line says.
#[derive(Clone, Copy)]
pub enum Said {
    /// `size`: bytes of the chip.
    Size(u32),
    /// `page`.
    Page(Page),
    /// `address`: address bytes of the legacy opcodes.
    Address(Width),
    /// `erase`: the erase kind of a number.
    Kind(u8, Erase),
    /// `enter`: how four-byte address mode is entered.
    Enter(Switch),
    /// `leave`: how it is left.
    Leave(Switch),
    /// `quadread`: the 1-1-4 fast read.
    QuadRead(Option<QuadRead>),
    /// `dedicated`: the four-byte address instructions.
    Dedicated(Dedicated),
    /// `region`: the next region of the sector map.
    Region(Region),
}

/// `size N`.
pub(crate) fn size_said(words: &[&[u8]]) -> Result<Said, LineFault>
    ensures said { result ≡ size_said (map (λ word. word.now) words.now) }
    ensures kept { IfOk result IsSaid }
{
    let [size] = words else {
        return Err(LineFault::Form);
    };
    let size = number_of(size).ok_or(LineFault::Form)?;
    if !is_size(size) {
        return Err(LineFault::Limit);
    }
    Ok(Said::Size(size))
}

/// Whether a chip may have a size.
fn is_size(size: u32) -> bool
    ensures { result ≡ is_size size }
{
    4096 <= size && size <= 1 << 28 && size % 4096 == 0
}

/// `page N`, or `page N up`.
pub(crate) fn page_said(words: &[&[u8]]) -> Result<Said, LineFault>
    ensures said { result ≡ page_said (map (λ word. word.now) words.now) }
    ensures kept { IfOk result IsSaid }
{
    match words {
        [size] => page_of(size, false),
        [size, up] => {
            if *up != b"up".as_slice() {
                return Err(LineFault::Form);
            }
            page_of(size, true)
        }
        _ => Err(LineFault::Form),
    }
}

/// A page of so many bytes.
#[tactic(auto, using(crate::proofs::PowerLemmas::page_power))]
fn page_of(size: &[u8], open_page: bool) -> Result<Said, LineFault>
    ensures said { result ≡ page_by size.now open_page }
    ensures kept { IfOk result IsSaid }
{
    let size = number_of(size).ok_or(LineFault::Form)?;
    if !is_page(size) {
        return Err(LineFault::Limit);
    }
    Ok(Said::Page(Page { size, open_page }))
}

/// Whether a page may have so many bytes.
fn is_page(size: u32) -> bool
    ensures { result ≡ is_page size }
{
    matches!(size, 16 | 32 | 64 | 128 | 256 | 512 | 1024 | 2048 | 4096)
}

/// `address three`, `address both` or `address four`.
pub(crate) fn address_said(words: &[&[u8]]) -> Result<Said, LineFault>
    ensures said { result ≡ address_said (map (λ word. word.now) words.now) }
    ensures kept { IfOk result IsSaid }
{
    let [width] = words else {
        return Err(LineFault::Form);
    };
    if *width == b"three".as_slice() {
        return Ok(Said::Address(Width::Three));
    }
    if *width == b"both".as_slice() {
        return Ok(Said::Address(Width::Both));
    }
    if *width == b"four".as_slice() {
        return Ok(Said::Address(Width::Four));
    }
    Err(LineFault::Form)
}

/// `erase K N OO PP`.
#[tactic(auto, using(crate::proofs::PowerLemmas::erase_power))]
pub(crate) fn erase_said(words: &[&[u8]]) -> Result<Said, LineFault>
    ensures said { result ≡ erase_said (map (λ word. word.now) words.now) }
    ensures kept { IfOk result IsSaid }
{
    let [kind, size, op, op4] = words else {
        return Err(LineFault::Form);
    };
    let kind = number_of(kind).ok_or(LineFault::Form)?;
    let size = number_of(size).ok_or(LineFault::Form)?;
    let op = byte_of(op).ok_or(LineFault::Form)?;
    let op4 = op4_of(op4).ok_or(LineFault::Form)?;
    if !is_kind(kind) {
        return Err(LineFault::Limit);
    }
    if !is_erase_size(size) {
        return Err(LineFault::Limit);
    }
    Ok(Said::Kind(kind as u8, Erase { size, op, op4 }))
}

/// A dedicated opcode, or `--` for none.
fn op4_of(word: &[u8]) -> Option<Option<u8>>
    ensures op4 { result ≡ op4_of word.now }
    ensures byte { IfSome result (λ op4. IfSome op4 (λ byte. byte < 256)) }
{
    if word == b"--".as_slice() {
        return Some(None);
    }
    Some(Some(byte_of(word)?))
}

/// Whether an erase kind may have a number.
fn is_kind(kind: u32) -> bool
    ensures { result ≡ is_kind kind }
{
    1 <= kind && kind <= 4
}

/// Whether a block of an erase kind may have so many bytes.
fn is_erase_size(size: u32) -> bool
    ensures { result ≡ is_erase_size size }
{
    matches!(
        size,
        0x100
            | 0x200
            | 0x400
            | 0x800
            | 0x1000
            | 0x2000
            | 0x4000
            | 0x8000
            | 0x10000
            | 0x20000
            | 0x40000
            | 0x80000
            | 0x100000
            | 0x200000
            | 0x400000
            | 0x800000
            | 0x1000000
    )
}

/// `absent`, `plain` or `latched`.
pub(crate) fn switch_said(words: &[&[u8]]) -> Result<Switch, LineFault>
    ensures { result ≡ switch_said (map (λ word. word.now) words.now) }
{
    let [switch] = words else {
        return Err(LineFault::Form);
    };
    if *switch == b"absent".as_slice() {
        return Ok(Switch::Absent);
    }
    if *switch == b"plain".as_slice() {
        return Ok(Switch::Plain);
    }
    if *switch == b"latched".as_slice() {
        return Ok(Switch::Latched);
    }
    Err(LineFault::Form)
}

/// `quadread none`, or `quadread OO N`.
pub(crate) fn quad_read_said(words: &[&[u8]]) -> Result<Said, LineFault>
    ensures said { result ≡ quad_read_said (map (λ word. word.now) words.now) }
    ensures kept { IfOk result IsSaid }
{
    match words {
        [none] => {
            if *none != b"none".as_slice() {
                return Err(LineFault::Form);
            }
            Ok(Said::QuadRead(None))
        }
        [op, dummies] => quad_read_of(op, dummies),
        _ => Err(LineFault::Form),
    }
}

/// A quad read that is there.
fn quad_read_of(op: &[u8], dummies: &[u8]) -> Result<Said, LineFault>
    ensures said { result ≡ quad_read_by (byte_of op.now) (number_of dummies.now) }
    ensures kept { IfOk result IsSaid }
{
    let op = byte_of(op).ok_or(LineFault::Form)?;
    let dummies = number_of(dummies).ok_or(LineFault::Form)?;
    if dummies > 38 {
        return Err(LineFault::Limit);
    }
    Ok(Said::QuadRead(Some(QuadRead {
        op,
        dummies: dummies as u8,
    })))
}

/// `dedicated`, and then any of `13`, `6c`, `12` and `34`.

pub(crate) fn dedicated_said(words: &[&[u8]]) -> Result<Said, LineFault>
    ensures said { result ≡ dedicated_said (map (λ word. word.now) words.now) }
    ensures kept { IfOk result IsSaid }
{
    if !are_dedicated(words) {
        return Err(LineFault::Form);
    }
    Ok(Said::Dedicated(Dedicated {
        read4: offers(0x13, words),
        quad_read4: offers(0x6C, words),
        program4: offers(0x12, words),
        quad4: offers(0x34, words),
    }))
}

/// Whether each of the words names a four-byte address instruction.
fn are_dedicated(words: &[&[u8]]) -> bool
    ensures { result ≡ list_all (λ word. is_dedicated word.now) words.now }
{
    words.iter().all(|word| is_dedicated(word))
}

/// Whether a word names a four-byte address instruction.
fn is_dedicated(word: &[u8]) -> bool
    ensures { result ≡ is_dedicated word.now }
{
    matches!(byte_of(word), Some(0x13 | 0x6C | 0x12 | 0x34))
}

/// Whether one of the words names an opcode.
fn offers(op: u8, words: &[&[u8]]) -> bool
    ensures { result ≡ list_any (λ word. names op word.now) words.now }
{
    words.iter().any(|word| names(op, word))
}

/// Whether a word names an opcode.
fn names(op: u8, word: &[u8]) -> bool
    ensures { result ≡ names op word.now }
{
    byte_of(word).is_some_and(|byte| byte == op)
}

/// `region N K`.
pub(crate) fn region_said(words: &[&[u8]]) -> Result<Said, LineFault>
    ensures said { result ≡ region_said (map (λ word. word.now) words.now) }
    ensures kept { IfOk result IsSaid }
{
    let [size, kinds] = words else {
        return Err(LineFault::Form);
    };
    let size = number_of(size).ok_or(LineFault::Form)?;
    let kinds = number_of(kinds).ok_or(LineFault::Form)?;
    if size == 0 || size % 256 != 0 || kinds > 15 {
        return Err(LineFault::Limit);
    }
    Ok(Said::Region(Region {
        size,
        kinds: kinds as u8,
    }))
}
