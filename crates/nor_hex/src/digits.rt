//! Bytes as pairs of hexadecimal digits.

ghost use Rattle.std.specs.Prelude.{◌≡◌, ◌<◌, ◌≤◌, ◌/◌, ◌%◌, IsTrue, length, take, slice_index};
ghost use Rattle.std.specs.Prelude.{sum};
ghost use Rattle.std.specs.List.{list_all};
ghost use Rattle.hex.specs.Hex.{is_hex_digit};
ghost use Rattle.nor_hex.specs.Record.{pair_bytes};

/// Whether a byte is a hexadecimal digit, of either case.
pub(crate) fn is_digit(byte: u8) -> bool
    ensures { result ≡ is_hex_digit byte }
{
    matches!(byte, b'0'..=b'9' | b'A'..=b'F' | b'a'..=b'f')
}

/// Whether all bytes are hexadecimal digits. It looks at each, so that many are looked at at once.
pub(crate) fn are_digits(bytes: &[u8]) -> bool
    ensures { result ≡ list_all is_hex_digit bytes.now }
{
    let mut all = true;
    for byte in bytes {
        all &= is_digit(*byte);
    }
    all
}

/// The byte that the pair `i` of the digits spells, without a branch: the low half of a decimal
/// digit is its value, and that of a letter, which is at 64 or past it, is 9 less.
pub(crate) fn pair(digits: &[u8], i: usize) -> u8
    requires digits { IsTrue (list_all is_hex_digit digits.now) }
    requires in_range { i < length digits.now / 2 }
    ensures { result ≡ slice_index (pair_bytes digits.now) i }
{
    let high = digits[2 * i];
    let low = digits[2 * i + 1];
    (high % 16 + high / 64 * 9) * 16 + (low % 16 + low / 64 * 9)
}

/// Decodes the pairs to the front of `bytes`, and returns the sum of what they spell, modulo 256.
pub(crate) fn decode(digits: &[u8], bytes: &mut [u8]) -> u8
    requires digits { IsTrue (list_all is_hex_digit digits.now) }
    requires room { length digits.now / 2 ≤ length bytes.old }
    ensures bytes { take (length digits.now / 2) bytes.new ≡ pair_bytes digits.now }
    ensures sum { result ≡ sum (pair_bytes digits.now) % 256 }
{
    let mut sum = 0u8;
    for i in 0..digits.len() / 2 {
        let byte = pair(digits, i);
        bytes[i] = byte;
        sum = sum.wrapping_add(byte);
    }
    sum
}
