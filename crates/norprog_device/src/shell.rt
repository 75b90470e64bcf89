//! A text as a shell reads it.

ghost use Rattle.std.specs.Prelude.{◌≡◌, flat_map};
ghost use Rattle.std.specs.List.{list_all};
ghost use Rattle.nor_base.specs.Device.{Counts, Writes};
ghost use Rattle.norprog_device.specs.Shell.{is_bare, is_plain, quoted, quoted_word, shell_word};

use nor_base::{ByteOut, Failed, put_all};

/// Writes the word that a shell reads as a text: as it is where it has only letters, digits, and
/// - . / _, else between single quotes (POSIX, Shell Command Language, 2.2).
///
/// At `Failed` a proper prefix was taken; it comes only from the writer, whose count of failures
/// rose by one.
pub fn write_word<W: ByteOut>(text: &[u8], writer: &mut W) -> Result<(), Failed>
    ensures bytes { Writes (W.held writer.old) (W.held writer.new) result (shell_word text.now) }
    ensures count { Counts (W.count writer.old) (W.count writer.new) result }
{
    if is_bare(text) {
        put_all(writer, text)
    } else {
        write_quoted_word(text, writer)
    }
}

/// Writes a text between single quotes.
fn write_quoted_word<W: ByteOut>(text: &[u8], writer: &mut W) -> Result<(), Failed>
    ensures bytes { Writes (W.held writer.old) (W.held writer.new) result (quoted_word text.now) }
    ensures count { Counts (W.count writer.old) (W.count writer.new) result }
{
    put_all(writer, b"'")?;
    write_quoted(text, writer)?;
    put_all(writer, b"'")
}

/// Whether a text is a word as it is.
fn is_bare(text: &[u8]) -> bool
    ensures { result ≡ is_bare text.now }
{
    match text {
        [] => false,
        [..] => are_plain(text),
    }
}

/// Whether a text has only letters, digits, and - . / _
fn are_plain(text: &[u8]) -> bool
    ensures { result ≡ list_all is_plain text.now }
{
    text.iter().all(|byte| is_plain(*byte))
}

/// Whether it is a letter, a digit, or one of - . / _
fn is_plain(byte: u8) -> bool
    ensures { result ≡ is_plain byte }
{
    byte.is_ascii_alphanumeric() || b"-./_".contains(&byte)
}

/// Writes a text as it is between single quotes.
fn write_quoted<W: ByteOut>(text: &[u8], writer: &mut W) -> Result<(), Failed>
    ensures bytes { Writes (W.held writer.old) (W.held writer.new) result
        (flat_map quoted text.now) }
    ensures count { Counts (W.count writer.old) (W.count writer.new) result }
{
    for byte in text {
        write_byte(*byte, writer)?;
    }
    Ok(())
}

/// Writes a byte as it is between single quotes.
fn write_byte<W: ByteOut>(byte: u8, writer: &mut W) -> Result<(), Failed>
    ensures bytes { Writes (W.held writer.old) (W.held writer.new) result (quoted byte) }
    ensures count { Counts (W.count writer.old) (W.count writer.new) result }
{
    if byte == b'\'' {
        put_all(writer, b"'\\''")
    } else {
        put_all(writer, &[byte])
    }
}
