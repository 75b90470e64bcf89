//! Which chip a command line names, and in what state.

ghost use Rattle.std.specs.Prelude.{◌≡◌, option_map};
ghost use Rattle.nor_job.specs.Task.{origin_of as task_origin};
ghost use Rattle.norprog_common.specs.Chip.{origin_of, chosen_origin, task_chip};
ghost use Rattle.norprog_common.specs.Values.{said_number, said_status};

use crate::values::{decimal, status};
use nor_job::Source;

/// Where the meaning of the chip comes from.
#[derive(Clone, Copy)]
pub enum Chip<'a> {
    /// The file of its SFDP bytes, and the configuration bits.
    Sfdp { file: &'a str, bits: &'a str },
    /// A chip of this many bytes.
    Uniform(u32),
    /// The file of its sheet.
    Sheet { file: &'a str },
}

/// The chip, where exactly one of its SFDP file, its size and its sheet is given, the size is of
/// its form, and no bits stand beside a size or a sheet.
pub fn chip_of<'a>(
    sfdp: Option<&'a str>,
    uniform: Option<&'a str>,
    sheet: Option<&'a str>,
    bits: Option<&'a str>,
) -> Option<Chip<'a>>
    ensures { option_map origin_of result ≡ chosen_origin (option_map (λ t. t.now) sfdp.entry)
        (option_map (λ t. t.now) uniform.entry) (option_map (λ t. t.now) sheet.entry)
        (option_map (λ t. t.now) bits.entry) }
{
    match (sfdp, uniform, sheet, bits) {
        (Some(file), None, None, bits) => Some(Chip::Sfdp {
            file,
            bits: bits.unwrap_or(""),
        }),
        (None, Some(size), None, None) => Some(Chip::Uniform(decimal(size)?)),
        (None, None, Some(file), None) => Some(Chip::Sheet { file }),
        _ => None,
    }
}

/// The chip as the library takes it: the bytes of its tables with the bits that are asked for, its
/// size, or the text of its sheet, which is in the place of the tables.
pub fn source_of<'a>(chip: Chip<'a>, tables: &'a [u8]) -> Source<'a>
    ensures { task_origin result ≡ task_chip (origin_of chip.entry) tables.entry.now }
{
    match chip {
        Chip::Sfdp { file: _, bits } => Source::Sfdp {
            bytes: tables,
            bits,
        },
        Chip::Uniform(size) => Source::Uniform(size),
        Chip::Sheet { file: _ } => Source::Sheet(tables),
    }
}

/// The number, if one is given: decimal digits, within 32 bits. None where it isn't so.
pub fn optional_number(text: Option<&str>) -> Option<Option<u32>>
    ensures { result ≡ said_number (option_map (λ t. t.now) text.entry) }
{
    match text {
        Some(text) => Some(Some(decimal(text)?)),
        None => Some(None),
    }
}

/// The status, if one is given: exactly six hexadecimal digits of either case. None where it isn't
/// so.
pub fn optional_status(text: Option<&str>) -> Option<Option<u32>>
    ensures { result ≡ said_status (option_map (λ t. t.now) text.entry) }
{
    match text {
        Some(text) => Some(Some(status(text)?)),
        None => Some(None),
    }
}
