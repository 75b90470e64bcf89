//! Reads Intel HEX: the records of a text, and the memory image that they give.
//!
//! The format is Intel's "Hexadecimal Object File Format Specification", revision A, with these
//! rules where it is silent: digits are of either case; a line feed ends a line, and the last one
//! may be missing; blanks, tabs and carriage returns at a line's end are dropped; lines that are
//! empty then are skipped but counted; a byte may be given twice, if it is the same byte.
//!
//! It also writes the records that give bytes at gapless addresses: an extended linear address
//! record for each segment of 64 KiB in which there are bytes, then its data records of 32 bytes
//! each, of which the last may have fewer; the end record last. Digits are upper-case, and each
//! line ends with a line feed. Of this only [`convert`] takes memory.
#![tactic(auto)]

mod base;
mod converted;
mod digits;
mod fault;
mod image;
mod laws;
mod pieces;
mod reader;
mod record;
mod record_iter;
mod segments;
mod union;
mod writer;
mod written_record;

pub use converted::{Unconverted, convert, fits};
pub use fault::HexFault;
pub use image::{Image, ImageIter};
pub use laws::{parts_join, read_back, written_images};
pub use reader::read;
pub use record::HexLine;
pub use record_iter::{RecordIter, records};
pub use union::UnionFault;
pub use writer::{hex_of, write_data, write_end, write_hex};
