//! What one line of a script says.

ghost use Rattle.std.specs.Prelude.{◌≡◌, ◌<◌, ◌^◌, ◌==◌, position, true, false, [], IfOk, IfErr};
ghost use Rattle.std.specs.Prelude.{MatchOption, count_by, Some};
ghost use Rattle.std.specs.List.{list_all};
ghost use Rattle.nor_base.specs.Sample.{is_symbol};
ghost use Rattle.nor_script.specs.Line.{clocks_fault, is_blank, are_two_parts, is_lower_digit};
ghost use Rattle.nor_script.specs.Line.{are_pairs, verify_fault, step_fault, count_fault};
ghost use Rattle.nor_script.specs.Parts.{AreParts, AreVerifyParts, IsOnlyBlank, or_fault};
ghost use Rattle.nor_script.specs.LineParts.{AreOfLine};

use crate::fault::ScriptFault;
use itoa::Buffer;
use memchr::memchr;

/// The kind of a step.
#[derive(Clone, Copy, Drop)]
pub(crate) enum Kind {
    Send,
    Poll,
    Verify,
}

/// A step's line in parts.
#[derive(Clone, Copy, Drop)]
pub(crate) struct LineParts<'a> {
    pub(crate) kind: Kind,
    /// The symbols of its clocks.
    pub(crate) clocks: &'a [u8],
    /// The digits of the bytes expected; only a [`Kind::Verify`] has some.
    pub(crate) digits: &'a [u8],
}

/// The parts of a line that is no end line, or why it is that of no step.
pub(crate) fn parts_on(number: u64, line: &[u8]) -> Result<LineParts<'_>, ScriptFault>
    ensures read { IfOk result
        (λ parts. AreOfLine line.now parts.kind parts.clocks.now parts.digits.now) }
    ensures refused { IfErr result (λ fault. step_fault number line.now ≡ Some fault) }
{
    let [letter, b' ', rest @ ..] = line else {
        return Err(ScriptFault::BadLine(number));
    };
    match letter {
        b'x' => {
            check_clocks(number, rest)?;
            Ok(once(Kind::Send, rest))
        }
        b'p' => {
            check_clocks(number, rest)?;
            Ok(once(Kind::Poll, rest))
        }
        b'v' => {
            let (clocks, digits) = verify_parts(number, rest)?;
            Ok(LineParts {
                kind: Kind::Verify,
                clocks,
                digits,
            })
        }
        _ => Err(ScriptFault::BadLine(number)),
    }
}

/// The parts of a step that expects nothing.
fn once(kind: Kind, clocks: &[u8]) -> LineParts<'_>
    ensures kind { result.kind ≡ kind }
    ensures clocks { result.clocks.now ≡ clocks.now }
    ensures digits { result.digits.now ≡ [] }
{
    LineParts {
        kind,
        clocks,
        digits: &[],
    }
}

/// Why what comes after `end ` isn't the number of these steps.
pub(crate) fn check_count(steps: u64, count: &[u8]) -> Result<(), ScriptFault>
    requires { steps < 2 ^ 63 }
    ensures { result ≡ or_fault (count_fault steps count.now) }
{
    let mut digits = Buffer::new();
    if digits.format(steps).as_bytes() != count {
        return Err(ScriptFault::BadCount(steps + 2));
    }
    Ok(())
}

/// Why these aren't the clocks of a step.
fn check_clocks(number: u64, clocks: &[u8]) -> Result<(), ScriptFault>
    ensures { result ≡ or_fault (clocks_fault number clocks.now) }
{
    if clocks.is_empty() {
        return Err(ScriptFault::BadLine(number));
    }
    if !are_symbols(clocks) {
        return Err(ScriptFault::BadSymbol(number));
    }
    Ok(())
}

/// The clocks and the digits that come after `v `.
fn verify_parts(number: u64, rest: &[u8]) -> Result<(&[u8], &[u8]), ScriptFault>
    ensures read { IfOk result (λ parts. AreVerifyParts rest.now parts.0.now parts.1.now) }
    ensures refused { IfErr result (λ fault. verify_fault number rest.now ≡ Some fault) }
{
    let Some((clocks, digits)) = two_parts(rest) else {
        return Err(ScriptFault::BadLine(number));
    };
    if !are_symbols(clocks) {
        return Err(ScriptFault::BadSymbol(number));
    }
    if !are_pairs(digits) {
        return Err(ScriptFault::BadLine(number));
    }
    Ok((clocks, digits))
}

/// The two parts around the only blank, where neither is empty.
fn two_parts(rest: &[u8]) -> Option<(&[u8], &[u8])>
    ensures { MatchOption result (are_two_parts rest.now ≡ false)
        (λ parts. AreParts rest.now parts.0.now parts.1.now) }
{
    let Some(blank) = only_blank(rest) else {
        return None;
    };
    let clocks = &rest[..blank];
    let digits = &rest[blank + 1..];
    if clocks.is_empty() || digits.is_empty() {
        return None;
    }
    Some((clocks, digits))
}

/// Where a byte first stands.
pub(crate) fn place_of(wanted: u8, bytes: &[u8]) -> Option<usize>
    ensures { result ≡ position (λ byte. byte == wanted) bytes.now }
{
    memchr(wanted, bytes)
}

/// Where the only blank stands.
fn only_blank(rest: &[u8]) -> Option<usize>
    ensures { MatchOption result ((count_by is_blank rest.now == 1) ≡ false)
        (IsOnlyBlank rest.now) }
{
    let Some(blank) = place_of(b' ', rest) else {
        return None;
    };
    match place_of(b' ', &rest[blank + 1..]) {
        Some(_) => None,
        None => Some(blank),
    }
}

fn are_symbols(clocks: &[u8]) -> bool
    ensures { result ≡ list_all is_symbol clocks.now }
{
    // without a branch, so that many symbols are tested at once: a script has millions of them
    let mut all = true;
    for symbol in clocks {
        all &= is_symbol(*symbol);
    }
    all
}

fn is_symbol(byte: u8) -> bool
    ensures { result ≡ is_symbol byte }
{
    let digit = (byte == b'0') | (byte == b'1');
    let nibble = (byte >= b'a') & (byte <= b'p');
    digit | nibble | (byte == b'.') | (byte == b'=') | (byte == b'-')
}

/// Whether these are pairs of lower-case hexadecimal digits.
fn are_pairs(digits: &[u8]) -> bool
    ensures { result ≡ are_pairs digits.now }
{
    digits.len() % 2 == 0 && are_lower_digits(digits)
}

fn are_lower_digits(digits: &[u8]) -> bool
    ensures { result ≡ list_all is_lower_digit digits.now }
{
    let mut all = true;
    for digit in digits {
        all &= is_lower_digit(*digit);
    }
    all
}

fn is_lower_digit(byte: u8) -> bool
    ensures { result ≡ is_lower_digit byte }
{
    let digit = (byte >= b'0') & (byte <= b'9');
    let letter = (byte >= b'a') & (byte <= b'f');
    digit | letter
}
