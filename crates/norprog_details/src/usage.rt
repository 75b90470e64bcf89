//! What of a command line isn't of its form.

use crate::form::{fits, form_of, form_words};
use crate::text::add;
use crate::typed::{CommandLine, Typed, is_typed, value_of};
use std::alloc::AllocError;

const NO_IMAGE: &[u8] = b"--hex or --bin is missing: the image\n";

const NO_SCOPE: &[u8] = b"either --all or the names of regions: what is erased\n";

const CHIPS: &[u8] = b"--sfdp and --uniform don't go together\n";

const SFDP_SHEET: &[u8] = b"--sfdp and --sheet don't go together\n";

const UNIFORM_SHEET: &[u8] = b"--uniform and --sheet don't go together\n";

const TIMES: &[u8] = b"--busy and --each-busy don't go together\n";

const BITS: &[u8] = b"--bits and --uniform don't go together\n";

const BITS_SHEET: &[u8] = b"--bits and --sheet don't go together\n";

const TABLES_SHEET: &[u8] = b"--tables and --sheet don't go together\n";

const TABLES: &[u8] = b"--tables and --uniform don't go together\n";

const NEAR: &[u8] = b"--near with neither --uniform nor --sheet: the chip's own tables\n";

const NO_CHIP: &[u8] = b"--sfdp, --uniform or --sheet is missing: the chip\n";

const ONE_FILE: &[u8] = b"--tables and --out name one file\n";

/// Adds a line for each value that isn't of its form, and one for each rule on options that a
/// command line breaks.
pub(crate) fn add_usage(line: CommandLine<'_>, said: &mut Vec<u8>) -> Result<(), AllocError> {
    let typed = line.typed;
    for option in typed {
        add_misfit(*option, said)?;
    }
    add(
        said,
        &[
            image_line(line),
            scope_line(line.command),
            pair_line(typed, "sfdp", "uniform", CHIPS),
            pair_line(typed, "sfdp", "sheet", SFDP_SHEET),
            pair_line(typed, "uniform", "sheet", UNIFORM_SHEET),
            pair_line(typed, "busy", "each-busy", TIMES),
            pair_line(typed, "bits", "uniform", BITS),
            pair_line(typed, "bits", "sheet", BITS_SHEET),
            pair_line(typed, "tables", "uniform", TABLES),
            pair_line(typed, "tables", "sheet", TABLES_SHEET),
            near_line(line),
            chip_line(line),
            outputs_line(typed),
        ],
    )
}

/// Adds the form of a value that isn't of it.
fn add_misfit(option: Typed<'_>, said: &mut Vec<u8>) -> Result<(), AllocError> {
    let form = form_of(option.name);
    if fits(form, option.value) {
        return Ok(());
    }
    let name = option.name.as_bytes();
    let value = option.value.as_bytes();
    add(said, &[b"--", name, b" ", value, b": "])?;
    add(said, &[form_words(form).as_bytes(), b"\n"])
}

/// A text, where two options are both given.
fn pair_line(typed: &[Typed<'_>], first: &str, second: &str, text: &'static [u8]) -> &'static [u8] {
    if is_typed(typed, first) && is_typed(typed, second) {
        text
    } else {
        b""
    }
}

/// That no image is named, where the command wants one.
fn image_line(line: CommandLine<'_>) -> &'static [u8] {
    let named = is_typed(line.typed, "hex") || is_typed(line.typed, "bin");
    if named || !wants_image(line.command) {
        b""
    } else {
        NO_IMAGE
    }
}

/// What `erase` wants.
fn scope_line(command: &str) -> &'static [u8] {
    if command == "erase" { NO_SCOPE } else { b"" }
}

/// What `flash` wants of `--near`, where the chip isn't known by its own tables.
fn near_line(line: CommandLine<'_>) -> &'static [u8] {
    let told = is_typed(line.typed, "uniform") || is_typed(line.typed, "sheet");
    if told && line.command == "flash" {
        NEAR
    } else {
        b""
    }
}

/// Whether a command wants an image by `--hex` or `--bin`.
fn wants_image(command: &str) -> bool {
    matches!(command, "build" | "plan" | "check" | "flash" | "compare")
}

/// That no chip is named, where the command wants one.
fn chip_line(line: CommandLine<'_>) -> &'static [u8] {
    let named = is_typed(line.typed, "sfdp")
        || is_typed(line.typed, "uniform")
        || is_typed(line.typed, "sheet");
    if named || !wants_chip(line.command) {
        b""
    } else {
        NO_CHIP
    }
}

/// Whether a command wants a chip by `--sfdp`, `--uniform` or `--sheet`.
fn wants_chip(command: &str) -> bool {
    !matches!(
        command,
        "read" | "flash" | "erase" | "compare" | "draw" | "hex" | "explain"
    )
}

/// That one file is named for both outputs of a reading.
fn outputs_line(typed: &[Typed<'_>]) -> &'static [u8] {
    if are_same(value_of(typed, "tables"), value_of(typed, "out")) {
        ONE_FILE
    } else {
        b""
    }
}

/// Whether two values are there, and the same.
fn are_same(one: Option<&str>, other: Option<&str>) -> bool {
    match (one, other) {
        (Some(one), Some(other)) => one == other,
        _ => false,
    }
}
