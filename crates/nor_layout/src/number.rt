//! The numbers of a layout.

ghost use Rattle.std.specs.Prelude.{◌≡◌, ◌≤◌, length, Some, None, if◌then◌else◌};
ghost use Rattle.std.specs.List.{list_all};
ghost use Rattle.std.specs.Char.{is_digit};
ghost use Rattle.std.specs.Str.Parse.{digits_value};
ghost use Rattle.nor_layout.specs.Number.{digits_of, number_of};

/// As many digits as a number of 32 bits has.
const MOST_DIGITS: usize = 8;

/// The value of 1 to 8 hexadecimal digits of either case, after an optional `0x` or `0X`. Else
/// None.
pub(crate) fn number(text: &[u8]) -> Option<u32>
    ensures { result ≡ number_of text.now }
{
    let digits = without_prefix(text);
    if digits.is_empty() || digits.len() > MOST_DIGITS {
        return None;
    }
    value_of(digits)
}

/// What comes after `0x` or `0X`, or all where neither does.
fn without_prefix(text: &[u8]) -> &[u8]
    ensures { result.now ≡ digits_of text.now }
{
    match text {
        [b'0', b'x' | b'X', digits @ ..] => digits,
        _ => text,
    }
}

/// The value of hexadecimal digits, or None where a byte is none.
fn value_of(digits: &[u8]) -> Option<u32>
    requires { length digits.now ≤ 8 }
    ensures { result ≡ (if list_all (λ c. is_digit c 16) digits.now
        then Some (digits_value 16 digits.now) else None) }
{
    let mut value: u32 = 0;
    for byte in digits {
        let Some(digit) = char::from(*byte).to_digit(16) else {
            return None;
        };
        value = value * 16 + digit;
    }
    Some(value)
}
