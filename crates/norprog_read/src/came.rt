//! Whether what came over a line shows that the terminal changed nothing of what was read.

ghost use Rattle.std.specs.Prelude.{◌≡◌, ◌++◌};
ghost use Rattle.norprog_read.specs.Came.{has, is_kept, is_of, shows_line};

/// Bytes that a setting of a terminal takes away, or makes of others (termios).
#[derive(Clone, Copy)]
pub(crate) enum Kind {
    /// From 80h on: ISTRIP clears the highest bit of each.
    High,
    /// Line feed: INLCR makes a carriage return of each.
    Feed,
    /// Carriage return: ICRNL makes a line feed of each.
    Return,
    /// A capital letter of ASCII or Latin-1: IUCLC makes a small one of each, as Linux's `tolower`.
    Capital,
    /// A small letter that is made of one of these.
    Small,
}

/// Whether what came, an identification, tables and a content, shows that none of these settings
/// changed the tables or the content: a byte came that ISTRIP changes, and for ICRNL, INLCR and
/// IUCLC each a byte came that it changes, or none was read that it makes.
pub(crate) fn shows_line(id: &[u8], tables: &[u8], content: &[u8]) -> bool
    ensures { result ≡ shows_line id.now (tables.now ++ content.now) }
{
    came(id, tables, content, Kind::High)
        && is_kept(id, tables, content, Kind::Return, Kind::Feed)
        && is_kept(id, tables, content, Kind::Feed, Kind::Return)
        && is_kept(id, tables, content, Kind::Capital, Kind::Small)
}

/// Whether a setting that makes one kind of another didn't change what was read: some byte of the
/// kind that it takes away came, or none was read of the kind that it makes.
fn is_kept(id: &[u8], tables: &[u8], content: &[u8], lost: Kind, made: Kind) -> bool
    ensures { result ≡ is_kept lost made id.now (tables.now ++ content.now) }
{
    came(id, tables, content, lost) || !read(tables, content, made)
}

/// Whether some byte of this kind came, in the identification or in what was read.
fn came(id: &[u8], tables: &[u8], content: &[u8], kind: Kind) -> bool
    ensures { result ≡ has kind (id.now ++ (tables.now ++ content.now)) }
{
    has(id, kind) || read(tables, content, kind)
}

/// Whether some byte of this kind was read, in the tables or in the content.
fn read(tables: &[u8], content: &[u8], kind: Kind) -> bool
    ensures { result ≡ has kind (tables.now ++ content.now) }
{
    has(tables, kind) || has(content, kind)
}

/// Whether some of these bytes is of this kind.
fn has(bytes: &[u8], kind: Kind) -> bool
    ensures { result ≡ has kind bytes.now }
{
    bytes.iter().any(|byte| is_of(kind, *byte))
}

/// Whether a byte is of this kind.
fn is_of(kind: Kind, byte: u8) -> bool
    ensures { result ≡ is_of kind byte }
{
    match kind {
        Kind::High => byte >= 0x80,
        Kind::Feed => byte == b'\n',
        Kind::Return => byte == b'\r',
        Kind::Capital => {
            (byte >= b'A' && byte <= b'Z') || (byte >= 0xC0 && byte <= 0xDE && byte != 0xD7)
        }
        Kind::Small => {
            (byte >= b'a' && byte <= b'z') || (byte >= 0xE0 && byte <= 0xFE && byte != 0xF7)
        }
    }
}
