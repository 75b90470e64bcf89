//! The words of rows: numbers.

use std::io::{self, ErrorKind};

/// A word that no row has there, as an error.
pub const ODD: ErrorKind = ErrorKind::InvalidInput;

/// A number in decimal.
pub fn number(word: &str) -> io::Result<u32> {
    Ok(word.parse::<u32>().ok().ok_or(ODD)?)
}

/// A number in hexadecimal.
pub fn hexadecimal(word: &str) -> io::Result<u32> {
    Ok(u32::from_str_radix(word, 16).ok().ok_or(ODD)?)
}

/// A byte of one or two hexadecimal digits.
pub fn byte(word: &str) -> io::Result<u8> {
    Ok(u8::from_str_radix(word, 16).ok().ok_or(ODD)?)
}
