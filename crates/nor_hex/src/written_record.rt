//! One record.

ghost use Rattle.std.specs.Prelude.{◌≡◌, ◌-◌, ◌<◌, ◌≤◌, ◌%◌, ◌∷◌, ◌++◌, [], length, sum};
ghost use Rattle.std.specs.Prelude.{slice_index};
ghost use Rattle.arrayvec.specs.ArrayVec.{array_vec_len};
ghost use Rattle.hex.specs.Hex.{encode_upper, upper_digits};
ghost use Rattle.nor_base.specs.Device.{Writes, Counts};
ghost use Rattle.nor_hex.specs.WrittenRecords.{fields, record_bytes, record_text};

use arrayvec::ArrayVec;
use nor_base::{ByteOut, Failed, put_all};

/// The most data bytes of a record.
pub(crate) const ROW: usize = 32;

/// The most bytes of a record: the length, the load offset in two, the type, the data and the
/// checksum.
const MOST_BYTES: usize = 37;

/// A colon, two digits for each byte, and a line feed.
const MOST_TEXT: usize = 76;

/// The digits.
const DIGITS: &[u8; 16] = b"0123456789ABCDEF";

/// Puts a record.
pub(crate) fn put_record<W: ByteOut>(
    kind: u8,
    offset: u16,
    data: &[u8],
    out: &mut W,
) -> Result<(), Failed>
    requires few { length data.now ≤ 32 }
    ensures bytes { Writes (W.held out.old) (W.held out.new) result
        (record_text (record { kind = kind; offset = offset; bytes = data.now })) }
    ensures count { Counts (W.count out.old) (W.count out.new) result }
{
    let bytes = bytes_of(kind, offset, data);
    let text = text_of(bytes.as_slice());
    put_all(out, text.as_slice())
}

/// The bytes of a record.
fn bytes_of(kind: u8, offset: u16, data: &[u8]) -> ArrayVec<u8, MOST_BYTES>
    requires { length data.now ≤ 32 }
    ensures bytes { result.items ≡ record_bytes
        (record { kind = kind; offset = offset; bytes = data.now }) }
    ensures few { length result.items ≤ 37 }
{
    let mut bytes = fields_of(kind, offset, data);
    let last = checksum(bytes.as_slice());
    bytes.push(last);
    bytes
}

/// The bytes before the checksum.
fn fields_of(kind: u8, offset: u16, data: &[u8]) -> ArrayVec<u8, MOST_BYTES>
    requires { length data.now ≤ 32 }
    ensures bytes { result.items
        ≡ fields (record { kind = kind; offset = offset; bytes = data.now }) }
    ensures few { array_vec_len result ≤ 36 }
{
    let mut bytes = ArrayVec::new();
    bytes.push(data.len() as u8);
    bytes.push((offset / 256) as u8);
    bytes.push((offset % 256) as u8);
    bytes.push(kind);
    for byte in data {
        bytes.push(*byte);
    }
    bytes
}

/// What makes the sum of the bytes 0 modulo 256.
fn checksum(bytes: &[u8]) -> u8
    ensures { result ≡ (256 - sum bytes.now % 256) % 256 }
{
    let mut sum = 0u8;
    for byte in bytes {
        sum = sum.wrapping_add(*byte);
    }
    0u8.wrapping_sub(sum)
}

/// The line of a record's bytes.
fn text_of(bytes: &[u8]) -> ArrayVec<u8, MOST_TEXT>
    requires { length bytes.now ≤ 37 }
    ensures { result.items ≡ 0x3A ∷ (encode_upper bytes.now ++ 0x0A ∷ []) }
{
    let mut text = ArrayVec::new();
    text.push(b':');
    for byte in bytes {
        text.push(digit(byte / 16));
        text.push(digit(byte % 16));
    }
    text.push(b'\n');
    text
}

/// The upper-case digit of a number below 16.
fn digit(number: u8) -> u8
    requires { number < 16 }
    ensures { result ≡ slice_index upper_digits number }
{
    DIGITS[usize::from(number)]
}
