//! Bytes and numbers in digits.

ghost use Rattle.std.specs.Prelude.{◌≡◌, IfOk, option_map};
ghost use Rattle.nor_log.specs.Words.{byte_of, bytes_of, count_of, decimal_of, pair_on, value_of};

use crate::text::{bare, is_blank};
use nor_base::Bytes;
use std::alloc::{AllocError, Global};

/// The bytes that pairs of hexadecimal digits spell, between which blanks may be; None where the
/// text has anything else.
pub(crate) fn bytes_of(alloc: Global, text: &[u8]) -> Result<Option<Bytes>, AllocError>
    ensures { IfOk result (λ bytes. bytes ≡ bytes_of text.now) }
{
    let mut bytes = Vec::new(alloc);
    let mut rest = text;
    while let [first, others @ ..] = rest {
        if is_blank(*first) {
            rest = others;
        } else {
            let Some((byte, more)) = pair_on(rest) else {
                return Ok(None);
            };
            bytes.push(byte)?;
            rest = more;
        }
    }
    Ok(Some(Bytes::new(bytes)))
}

/// The byte of the two digits that a text begins with, and what is after them.
fn pair_on(text: &[u8]) -> Option<(u8, &[u8])>
    ensures { option_map (λ pair. (pair.0, pair.1.now)) result ≡ pair_on text.now }
{
    let [high, low, more @ ..] = text else {
        return None;
    };
    Some((byte_of(*high, *low)?, more))
}

/// The byte of two hexadecimal digits.
fn byte_of(high: u8, low: u8) -> Option<u8>
    ensures { result ≡ byte_of high low }
{
    let high = char::from(high).to_digit(16)?;
    let low = char::from(low).to_digit(16)?;
    Some((high * 16 + low) as u8)
}

/// How many bytes a text `N bytes` says, which has no blanks at its ends.
pub(crate) fn count_of(text: &[u8]) -> Option<u32>
    ensures { result ≡ count_of text.now }
{
    decimal_of(bare(text.strip_suffix(b"bytes")?))
}

/// The value of decimal digits, where it has 32 bits.
fn decimal_of(digits: &[u8]) -> Option<u32>
    ensures { result ≡ decimal_of digits.now }
{
    if digits.is_empty() {
        return None;
    }
    value_of(digits)
}

/// The value of decimal digits, 0 where there is none.
fn value_of(digits: &[u8]) -> Option<u32>
    ensures { result ≡ value_of digits.now }
{
    let mut value: u32 = 0;
    for byte in digits {
        let digit = char::from(*byte).to_digit(10)?;
        value = value.checked_mul(10)?.checked_add(digit)?;
    }
    Some(value)
}
