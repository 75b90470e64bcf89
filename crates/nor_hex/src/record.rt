//! One record.

ghost use Rattle.std.specs.Prelude.{◌≡◌, ◌+◌, ◌*◌, ◌<◌, ◌≤◌, true, IsTrue, IfOk, length, take};
ghost use Rattle.std.specs.Prelude.{drop, slice_index};
ghost use Rattle.std.specs.List.{list_all};
ghost use Rattle.hex.specs.Hex.{is_hex_digit};
ghost use Rattle.nor_hex.specs.Record.{record_of, pair_bytes, has_length, fits_type, length_field};
ghost use Rattle.nor_hex.specs.Record.{data_field};

use crate::digits::{are_digits, decode, pair};
use crate::fault::HexFault;
use std::marker::Model;

/// A record of a text. Clauses see it with its data as bytes.
#[derive(Drop)]
pub struct HexLine<'a> {
    /// The record type, 0 to 5.
    pub kind: u8,
    /// The load offset of the first data byte.
    pub offset: u16,
    /// The hexadecimal digits of the data, two for a byte.
    pub digits: &'a [u8],
    /// The number of the record's line, from 1.
    pub line: u64,
}

impl<'a> Model for HexLine<'a> {
    ghost use Rattle.nor_hex.specs.Record.{Record, IsComplete, pair_bytes};

    ghost Value = { Record };

    ghost view = { λ s. record
        { kind = s.kind; offset = s.offset; bytes = pair_bytes s.digits.now; line = s.line } };

    ghost invariant = { λ s. IsComplete s.kind s.digits.now };
}

impl<'a> HexLine<'a> {
    /// The data byte at place `i`, below half the number of digits.
    pub fn byte(&self, i: usize) -> u8
        requires { i < length self.now.bytes }
        ensures { result ≡ slice_index self.now.bytes i }
    {
        pair(self.digits, i)
    }

    /// The number of data bytes.
    pub(crate) fn len(&self) -> usize
        ensures { result ≡ length self.now.bytes }
    {
        self.digits.len() / 2
    }
}

/// The most bytes that a record has: the length, the load offset in two, the type, 255 data bytes
/// and the checksum.
pub(crate) const MOST_BYTES: usize = 260;

/// The record that a line without blanks at its end is. Its bytes are left in `bytes`, the data
/// from place 4 on.
pub(crate) fn record_in<'a>(
    line: &'a [u8],
    number: u64,
    bytes: &mut [u8],
) -> Result<HexLine<'a>, HexFault>
    requires { length bytes.old ≡ MOST_BYTES }
    ensures line { result ≡ record_of number line.now }
    ensures few { IfOk result (λ line. length line.bytes ≤ 255) }
    ensures bytes { IfOk result (λ line. take (length line.bytes) (drop 4 bytes.new) ≡ line.bytes) }
{
    let Some((b':', digits)) = line.split_first() else {
        return Err(HexFault::NoColon { line: number });
    };
    if !are_digits(digits) {
        return Err(HexFault::BadDigit { line: number });
    }
    if !is_complete(digits) {
        return Err(HexFault::BadLength { line: number });
    }
    if decode(digits, bytes) != 0 {
        return Err(HexFault::BadSum { line: number });
    }
    let kind = pair(digits, 3);
    if kind > 5 {
        return Err(HexFault::BadType { line: number });
    }
    Ok(HexLine {
        kind,
        offset: offset_in(digits),
        digits: data_in(digits),
        line: number,
    })
}

/// The load offset.
fn offset_in(digits: &[u8]) -> u16
    requires digits { IsTrue (list_all is_hex_digit digits.now) }
    requires length { 10 ≤ length digits.now }
    ensures { result ≡ slice_index (pair_bytes digits.now) 1 * 256
        + slice_index (pair_bytes digits.now) 2 }
{
    u16::from(pair(digits, 1)) * 256 + u16::from(pair(digits, 2))
}

/// The digits of the data, between the four fields before it and the checksum.
fn data_in(digits: &[u8]) -> &[u8]
    requires digits { IsTrue (list_all is_hex_digit digits.now) }
    requires length { length digits.now ≡ 10 + 2 * length_field (pair_bytes digits.now) }
    ensures digits { IsTrue (list_all is_hex_digit result.now) }
    ensures bytes { pair_bytes result.now ≡ data_field (pair_bytes digits.now) }
{
    &digits[8..digits.len() - 2]
}

/// Whether there are as many digits as the record length says, and the length is right for the
/// record type.
fn is_complete(digits: &[u8]) -> bool
    requires { IsTrue (list_all is_hex_digit digits.now) }
    ensures complete { result ≡ has_length digits.now }
    ensures few { result ≡ true → length digits.now ≤ 520 }
{
    if digits.len() < 10 {
        return false;
    }
    let len = pair(digits, 0);
    digits.len() == 10 + 2 * usize::from(len) && fits_type(pair(digits, 3), len)
}

/// Whether a record length is right for a record type.
fn fits_type(kind: u8, len: u8) -> bool
    ensures { result ≡ fits_type kind len }
{
    match kind {
        1 => len == 0,
        2 | 4 => len == 2,
        3 | 5 => len == 4,
        _ => true,
    }
}
