//! Why a sheet is refused.

use thiserror::Error;

/// Why a line of a sheet is refused. Of the causes that a line has the first in this order is
/// reported.
#[derive(Clone, Copy, Debug, PartialEq, Eq, Error)]
pub enum LineFault {
    /// Its first word is none of a sheet's.
    #[error("unknown word")]
    Word,
    /// What follows isn't of that word's form.
    #[error("wrong form")]
    Form,
    /// A number is outside its limits, or the line has the 257th region.
    #[error("out of limits")]
    Limit,
    /// A line above says it, whatever it says of it.
    #[error("said above")]
    Twice,
}

/// What is wrong with the whole of a sheet no line of which is at fault. The first in this order is
/// reported.
#[derive(Clone, Copy, Debug, PartialEq, Eq, Error)]
pub enum Lack {
    /// No line says the size.
    #[error("no size")]
    Size,
    /// No line says the page.
    #[error("no page")]
    Page,
    /// No line says the address bytes.
    #[error("no address bytes")]
    Address,
    /// The blocks of an erase kind are smaller than a page.
    #[error("an erase kind smaller than the page")]
    Kind,
    /// The regions don't add up to the size.
    #[error("the regions don't add up to the size")]
    Regions,
    /// Four-byte address mode is entered or left, and the chip hasn't both modes.
    #[error("a mode is entered or left that isn't there")]
    Mode,
    /// The quad read by 6Ch is offered, and no quad read is there.
    #[error("6c without a quad read")]
    QuadRead,
    /// The opcode of the quad read or of a live erase kind has another meaning too.
    #[error("an opcode with two meanings")]
    Opcode,
}

/// Why a sheet is refused. Lines count from 1; those that are skipped count too.
#[derive(Clone, Copy, Debug, PartialEq, Eq, Error)]
pub enum SheetFault {
    /// The first line at fault.
    #[error("sheet line {0}: {1}")]
    Line(u64, LineFault),
    /// No line is at fault, but the whole is.
    #[error("sheet: {0}")]
    Whole(Lack),
}
