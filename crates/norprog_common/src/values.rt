//! The forms of values.

ghost use Rattle.std.specs.Prelude.{◌≡◌, ◌==◌, ◌≤◌, length, slice_index};
ghost use Rattle.norprog_common.specs.Values.{decimal_of, limit_of, base_of, status_of};
ghost use Rattle.norprog_common.specs.Values.{hexadecimal_of, part_of};

use nor_base::Part;

/// As many digits as a number of 32 bits has at most.
const MOST_DIGITS: usize = 8;

/// As many digits as the status bits S23 to S0 have.
const STATUS_DIGITS: usize = 6;

/// The value of decimal digits, which any number of zeros may lead. None where there is none, where
/// another character stands among them, or where the value is past 32 bits.
pub fn decimal(text: &str) -> Option<u32>
    ensures { result ≡ decimal_of text.now }
{
    if has_plus(text) {
        return None;
    }
    match text.parse::<u32>() {
        Ok(value) => Some(value),
        Err(_) => None,
    }
}

/// The value of decimal digits from 1 on that has 64 bits, which any number of zeros may lead. Else
/// None.
pub fn limit(text: &str) -> Option<u64>
    ensures { result ≡ limit_of text.now }
{
    if has_plus(text) {
        return None;
    }
    let value = match text.parse::<u64>() {
        Ok(value) => value,
        Err(_) => return None,
    };
    if value == 0 {
        return None;
    }
    Some(value)
}

/// The value of 1 to 8 hexadecimal digits of either case. Else None.
pub fn base(text: &str) -> Option<u32>
    ensures { result ≡ base_of text.now }
{
    if text.len() > MOST_DIGITS {
        return None;
    }
    hexadecimal(text)
}

/// The value of exactly six hexadecimal digits of either case. Else None.
pub fn status(text: &str) -> Option<u32>
    ensures { result ≡ status_of text.now }
{
    if text.len() != STATUS_DIGITS {
        return None;
    }
    hexadecimal(text)
}

/// Whether a plus sign comes first, which a number of std may have.
fn has_plus(text: &str) -> bool
    ensures { result ≡ (slice_index text.now 0 == 43) }
{
    text.as_bytes().first() == Some(&b'+')
}

/// The value of hexadecimal digits of either case. None where there is none, or where another
/// character stands among them.
fn hexadecimal(text: &str) -> Option<u32>
    requires { length text.now ≤ 8 }
    ensures { result ≡ hexadecimal_of text.now }
{
    if has_plus(text) {
        return None;
    }
    match u32::from_str_radix(text, 16) {
        Ok(value) => Some(value),
        Err(_) => None,
    }
}

/// The family that `generic` or `w25q256jv` names. Else None.
pub fn part(text: &str) -> Option<Part>
    ensures { result ≡ part_of text.now }
{
    match text {
        "generic" => Some(Part::Generic),
        "w25q256jv" => Some(Part::W25q256jv),
        _ => None,
    }
}
