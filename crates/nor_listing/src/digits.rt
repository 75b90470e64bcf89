//! Numbers and bytes of a line.

ghost use Rattle.std.specs.Prelude.{◌≡◌, IfOk, option_map};
ghost use Rattle.nor_listing.specs.Parts.{byte_in, number_in, bytes_in, decimal_in};

use hex::FromHexError;
use std::alloc::{AllocError, Global};

/// The byte of two digits.
pub(crate) fn byte_of(digits: &[u8]) -> Option<u8>
    ensures { result ≡ byte_in digits.now }
{
    let mut bytes = [0; 1];
    match hex::decode_to_slice(digits, &mut bytes) {
        Ok(()) => Some(bytes[0]),
        Err(_) => None,
    }
}

/// The number of eight digits.
pub(crate) fn number_of(digits: &[u8]) -> Option<u32>
    ensures { result ≡ number_in digits.now }
{
    let mut bytes = [0; 4];
    match hex::decode_to_slice(digits, &mut bytes) {
        Ok(()) => Some(u32::from_be_bytes(bytes)),
        Err(_) => None,
    }
}

/// The bytes of pairs of digits.
pub(crate) fn bytes_of(alloc: Global, digits: &[u8]) -> Result<Option<Vec<u8>>, AllocError>
    ensures { IfOk result (λ found. option_map (λ v. v.items) found ≡ bytes_in digits.now) }
{
    match hex::decode(alloc, digits) {
        Ok(bytes) => Ok(Some(bytes)),
        Err(FromHexError::OutOfMemory) => Err(AllocError),
        Err(_) => Ok(None),
    }
}

/// The value of decimal digits; None where a byte is none, or the value has more than 64 bits.
pub(crate) fn decimal_of(digits: &[u8]) -> Option<u64>
    ensures { result ≡ decimal_in digits.now }
{
    let mut value: u64 = 0;
    for byte in digits {
        let digit = char::from(*byte).to_digit(10)?;
        value = value.checked_mul(10)?.checked_add(u64::from(digit))?;
    }
    Some(value)
}
