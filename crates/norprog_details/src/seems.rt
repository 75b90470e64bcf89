//! What a file seems to be that isn't what its option takes.

use crate::passage::front;
use crate::text::add;
use std::alloc::AllocError;

/// A file by its first bytes.
#[derive(Clone, Copy)]
pub(crate) enum Kind {
    /// An executable (System V ABI, Executable and Linkable Format).
    Elf,
    /// Motorola S-records.
    SRecords,
    /// A flash map (flashmap, `__FMAP__`).
    Fmap,
    /// Text in UTF-16 (Unicode), with its byte order mark.
    Utf16,
    /// Text in UTF-8 after a byte order mark.
    Marked,
    /// Bytes that are no text.
    Raw,
    /// None of these.
    Text,
}

const ELF: &[u8] = b"it is an ELF file; for Intel HEX: objcopy -O ihex ";

const S_RECORDS: &[u8] = b"it has S-records; for Intel HEX: objcopy -I srec -O ihex ";

const RAW: &[u8] = b"it is a raw image; instead of --hex: --bin ";

const AT_REGION: &[u8] = b" (the whole chip), --bin REGION=";

const AT_ADDRESS: &[u8] = b" or --bin ADDRESS=";

const UTF_16: &[u8] = b"it is UTF-16 text; in ASCII: iconv -f UTF-16 -t ASCII ";

const MARKED: &[u8] = b"it begins with a byte order mark; without it: tail -c +4 ";

const FMAP: &[u8] = b"it has an FMAP; for a layout: dump_fmap -F ";

/// What a file seems to be, by its first bytes.
pub(crate) fn seems(text: &[u8]) -> Kind {
    if text.starts_with(b"\x7fELF") {
        Kind::Elf
    } else if text.starts_with(b"__FMAP__") {
        Kind::Fmap
    } else if is_s_record(text) {
        Kind::SRecords
    } else if text.starts_with(b"\xFF\xFE") || text.starts_with(b"\xFE\xFF") {
        Kind::Utf16
    } else if text.starts_with(b"\xEF\xBB\xBF") {
        Kind::Marked
    } else if is_raw(front(text, 80)) {
        Kind::Raw
    } else {
        Kind::Text
    }
}

/// Whether a text begins with an S and a digit.
fn is_s_record(text: &[u8]) -> bool {
    match text {
        [b'S', digit, ..] => b'0' <= *digit && *digit <= b'9',
        _ => false,
    }
}

/// Whether some byte is in no text.
fn is_raw(bytes: &[u8]) -> bool {
    bytes.iter().any(|byte| is_odd(*byte))
}

/// Whether a byte is neither printable ASCII nor a tab, line feed or carriage return.
fn is_odd(byte: u8) -> bool {
    byte >= 0x7F || (byte < 0x20 && byte != 9 && byte != 10 && byte != 13)
}

/// Adds the command that makes what an option takes of its file, where it seems to be of another
/// kind.
pub(crate) fn add_advice(
    name: &str,
    value: &str,
    text: &[u8],
    said: &mut Vec<u8>,
) -> Result<(), AllocError> {
    match name {
        "hex" => add_for_hex(value.as_bytes(), seems(text), said),
        "layout" => add_for_layout(value.as_bytes(), seems(text), said),
        _ => Ok(()),
    }
}

/// Adds the command that makes Intel HEX.
fn add_for_hex(file: &[u8], kind: Kind, said: &mut Vec<u8>) -> Result<(), AllocError> {
    match kind {
        Kind::Elf => add(said, &[ELF, file, b" ", file, b".hex\n"]),
        Kind::SRecords => add(said, &[S_RECORDS, file, b" ", file, b".hex\n"]),
        Kind::Raw => add(said, &[RAW, file, AT_REGION, file, AT_ADDRESS, file, b"\n"]),
        Kind::Utf16 => add(said, &[UTF_16, file, b" > ", file, b".hex\n"]),
        Kind::Marked => add(said, &[MARKED, file, b" > ", file, b".hex\n"]),
        Kind::Fmap | Kind::Text => Ok(()),
    }
}

/// Adds the command that makes a layout.
fn add_for_layout(file: &[u8], kind: Kind, said: &mut Vec<u8>) -> Result<(), AllocError> {
    match kind {
        Kind::Fmap => add(said, &[FMAP, file, b" > ", file, b".layout\n"]),
        Kind::Utf16 => add(said, &[UTF_16, file, b" > ", file, b".layout\n"]),
        Kind::Marked => add(said, &[MARKED, file, b" > ", file, b".layout\n"]),
        Kind::Elf | Kind::SRecords | Kind::Raw | Kind::Text => Ok(()),
    }
}
