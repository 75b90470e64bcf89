//! Why a text is no Intel HEX image.

ghost use Rattle.std.specs.Prelude.{◌≡◌};
ghost use Rattle.nor_hex.specs.declared.fault.HexFault.TheVariants.{Memory};

use std::alloc::{AllocError, AllocFailed};
use thiserror::Error;

/// The first fault of a text, with the number of its line, from 1.
///
/// Within a line the order is: `AfterEnd`, `NoColon`, `BadDigit`, `BadLength`, `BadSum`, `BadType`,
/// `Conflict`.
#[derive(Clone, Copy, Debug, PartialEq, Eq, Error)]
pub enum HexFault {
    /// The line's first byte is no colon.
    #[error("line {line}: no colon")]
    NoColon { line: u64 },
    /// A byte after the colon is no hexadecimal digit.
    #[error("line {line}: not a hexadecimal digit")]
    BadDigit { line: u64 },
    /// There are fewer than 10 digits, or not as many as the record length says, or the record
    /// length is not that of the record type.
    #[error("line {line}: wrong length")]
    BadLength { line: u64 },
    /// The bytes do not sum to 0 modulo 256.
    #[error("line {line}: wrong checksum")]
    BadSum { line: u64 },
    /// The record type is above 05.
    #[error("line {line}: unknown record type")]
    BadType { line: u64 },
    /// The record gives an address another byte than an earlier record.
    #[error("line {line}: an address has two bytes")]
    Conflict { line: u64 },
    /// The text has no end record. The line is the one after the last.
    #[error("line {line}: no end record")]
    NoEnd { line: u64 },
    /// A line that is not blank follows the end record.
    #[error("line {line}: a line after the end record")]
    AfterEnd { line: u64 },
    /// A growth of memory was refused.
    #[error("out of memory")]
    Memory,
}

impl From<AllocError> for HexFault {
    ghost from_gives = { λ _ e. e ≡ Memory };

    fn from(_error: AllocError) -> HexFault {
        HexFault::Memory
    }
}

impl<T: Drop> From<AllocFailed<T>> for HexFault {
    ghost from_gives = { λ _ e. e ≡ Memory };

    fn from(_error: AllocFailed<T>) -> HexFault {
        HexFault::Memory
    }
}
