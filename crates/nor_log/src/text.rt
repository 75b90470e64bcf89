//! Texts cut and trimmed.

ghost use Rattle.std.specs.Prelude.{◌≡◌, ◌==◌, position};
ghost use Rattle.std.specs.List.{before_first, after_first};
ghost use Rattle.nor_lines.specs.Lines.{is_blank, trimmed};
ghost use Rattle.nor_log.specs.Words.{bare};

use nor_lines::without_first_blanks;

/// What is before the first such byte, and what is after it: all, and nothing, where there is none.
pub(crate) fn cut(wanted: u8, text: &[u8]) -> (&[u8], &[u8])
    ensures before { result.0.now ≡ before_first (λ byte. byte == wanted) text.now }
    ensures after { result.1.now ≡ after_first (λ byte. byte == wanted) text.now }
{
    match place_of(wanted, text) {
        Some(place) => (&text[..place], &text[place + 1..]),
        None => (text, &[]),
    }
}

/// Where such a byte is first.
fn place_of(wanted: u8, text: &[u8]) -> Option<usize>
    ensures { result ≡ position (λ byte. byte == wanted) text.now }
{
    text.iter().position(|byte| *byte == wanted)
}

/// A text without the blanks at its ends.
pub(crate) fn bare(text: &[u8]) -> &[u8]
    ensures { result.now ≡ bare text.now }
{
    without_last_blanks(without_first_blanks(text))
}

/// A text up to its last byte that is no blank.
fn without_last_blanks(text: &[u8]) -> &[u8]
    ensures { result.now ≡ trimmed text.now }
{
    let mut rest = text;
    while let [others @ .., last] = rest
        && is_blank(*last)
    {
        rest = others;
    }
    rest
}

/// Whether a byte is a blank, a tab or a CR.
pub(crate) fn is_blank(byte: u8) -> bool
    ensures { result ≡ is_blank byte }
{
    matches!(byte, b' ' | b'\t' | b'\r')
}
