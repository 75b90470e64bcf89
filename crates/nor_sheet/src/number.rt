//! The numbers of a sheet.

ghost use Rattle.std.specs.Prelude.{◌≡◌, ◌≤◌, length, Some, None, if◌then◌else◌};
ghost use Rattle.std.specs.List.{list_all};
ghost use Rattle.std.specs.Char.{is_digit};
ghost use Rattle.std.specs.Str.Parse.{digits_value};
ghost use Rattle.nor_sheet.specs.Number.{byte_of, number_of, pair_of};

/// The value of 1 to 9 decimal digits.
pub(crate) fn number_of(word: &[u8]) -> Option<u32>
    ensures { result ≡ number_of word.now }
{
    if word.is_empty() || word.len() > 9 {
        return None;
    }
    value_of(word)
}

/// The value of decimal digits.
fn value_of(digits: &[u8]) -> Option<u32>
    requires { length digits.now ≤ 9 }
    ensures { result ≡ (if list_all (λ c. is_digit c 10) digits.now
        then Some (digits_value 10 digits.now) else None) }
{
    let mut value: u32 = 0;
    for byte in digits {
        let Some(digit) = char::from(*byte).to_digit(10) else {
            return None;
        };
        value = value * 10 + digit;
    }
    Some(value)
}

/// The byte of two hexadecimal digits.
pub(crate) fn byte_of(word: &[u8]) -> Option<u8>
    ensures { result ≡ byte_of word.now }
{
    match word {
        [high, low] => pair_of(*high, *low),
        _ => None,
    }
}

/// The byte of two digits.
fn pair_of(high: u8, low: u8) -> Option<u8>
    ensures { result ≡ pair_of high low }
{
    let high = char::from(high).to_digit(16)?;
    let low = char::from(low).to_digit(16)?;
    Some((high * 16 + low) as u8)
}
