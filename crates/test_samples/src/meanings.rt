//! Chips in rows: by their names, and what is reported of them.

use crate::{
    erased_only_chip, large_chip, latched_chip, legacy_chip, legacy_latched_chip,
    legacy_w25q256jv_chip, mapped_chip, open_page_chip, small_chip, w25q256jv_chip,
};
use nor_base::{Erase, Meaning};
use std::alloc::AllocError;
use std::fmt::Write;

/// The sample chips, each with the name that it has in rows.
pub fn named() -> [(&'static str, Meaning); 10] {
    [
        ("small", small_chip()),
        ("open-page", open_page_chip()),
        ("erased-only", erased_only_chip()),
        ("mapped", mapped_chip()),
        ("large", large_chip()),
        ("w25q256jv", w25q256jv_chip()),
        ("latched", latched_chip()),
        ("legacy", legacy_chip()),
        ("legacy-w25q256jv", legacy_w25q256jv_chip()),
        ("legacy-latched", legacy_latched_chip()),
    ]
}

/// Puts the line of an erase kind: its number, the bytes of its block, its opcode and its dedicated
/// one.
pub fn put_kind(kind: u8, size: u32, erase: Erase, out: &mut String) -> Result<(), AllocError> {
    write!(out, "erase {kind} {size} {:02x} ", erase.op)?;
    match erase.op4 {
        Some(opcode) => writeln!(out, "{opcode:02x}"),
        None => writeln!(out, "--"),
    }
}

/// Puts the lines of what instructions a chip takes besides: how four-byte mode is entered and
/// left, its quad read, the opcodes that are offered, and the profile of erased bytes.
pub fn put_instructions(meaning: &Meaning, out: &mut String) -> Result<(), AllocError> {
    writeln!(out, "enter {:?}\nleave {:?}", meaning.enter, meaning.leave)?;
    match meaning.quad_read {
        Some(read) => writeln!(out, "quadread {:02x} {}", read.op, read.dummies)?,
        None => writeln!(out, "quadread none")?,
    }
    write!(out, "offered")?;
    for (is, word) in [
        (meaning.read4, " 13"),
        (meaning.quad_read4, " 6c"),
        (meaning.program4, " 12"),
        (meaning.quad4, " 34"),
        (meaning.quad3, " 32"),
        (meaning.erased_only, "\nerased only"),
    ] {
        out.push_str(if is { word } else { "" })?;
    }
    writeln!(out)
}
