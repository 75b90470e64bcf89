//! The words of a line.

ghost use Rattle.std.specs.Prelude.{◌≡◌, ◌==◌, map, option_map, position};
ghost use Rattle.std.specs.List.{before_first, after_first};
ghost use Rattle.nor_lines.specs.Lines.{is_blank};
ghost use Rattle.nor_sheet.specs.Words.{at_most, is_hash, split, word_on, words_of};

use arrayvec::ArrayVec;
use nor_lines::without_first_blanks;

/// The words before a line's comment, where they are at most five.
pub(crate) fn words(line: &[u8]) -> Option<ArrayVec<&[u8], 5>>
    ensures { option_map (λ words. map (λ word. word.now) words.items) result
        ≡ at_most 5 (words_of line.now) }
{
    let mut words = ArrayVec::new();
    let mut rest = without_comment(line);
    while let Some((word, more)) = word_on(rest) {
        if words.is_full() {
            return None;
        }
        words.push(word);
        rest = more;
    }
    Some(words)
}

/// What is before the first `#`.
fn without_comment(line: &[u8]) -> &[u8]
    ensures { result.now ≡ before_first is_hash line.now }
{
    match place_of_hash(line) {
        Some(place) => &line[..place],
        None => line,
    }
}

/// Where the first `#` is.
fn place_of_hash(line: &[u8]) -> Option<usize>
    ensures { result ≡ position is_hash line.now }
{
    line.iter().position(|byte| *byte == b'#')
}

/// The first word, and what is after it.
fn word_on(text: &[u8]) -> Option<(&[u8], &[u8])>
    ensures { option_map (λ pair. (pair.0.now, pair.1.now)) result ≡ word_on text.now }
{
    let text = without_first_blanks(text);
    if text.is_empty() {
        return None;
    }
    Some(cut(text))
}

/// What is before the first blank, and what is after it: all, and nothing, where there is none.
fn cut(text: &[u8]) -> (&[u8], &[u8])
    ensures before { result.0.now ≡ before_first is_blank text.now }
    ensures after { result.1.now ≡ after_first is_blank text.now }
{
    match place_of_blank(text) {
        Some(place) => (&text[..place], &text[place + 1..]),
        None => (text, &[]),
    }
}

/// Where the first blank is.
fn place_of_blank(text: &[u8]) -> Option<usize>
    ensures { result ≡ position is_blank text.now }
{
    text.iter().position(|byte| is_blank(*byte))
}

/// Whether a byte is a blank, a tab or a CR.
fn is_blank(byte: u8) -> bool
    ensures { result ≡ is_blank byte }
{
    matches!(byte, b' ' | b'\t' | b'\r')
}
