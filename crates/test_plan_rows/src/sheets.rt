//! Rows on sheets.

use crate::bench::Asked;
use crate::meanings::put_meaning;
use crate::words::text;
use nor_sheet::{SheetFault, read};
use std::io;

/// Tells what a sheet says of a chip, or its fault.
pub(crate) fn read_sheet(asked: &Asked<'_, '_>, out: &mut String) -> io::Result<()> {
    let text = text(asked, ">")?.unwrap_or(Vec::new(asked.alloc));
    match read(&text) {
        Ok(meaning) => put_meaning(&meaning, out)?,
        Err(SheetFault::Line(line, fault)) => {
            writeln!(out, "sheet {} line {line}", u32::from(fault as u8) + 1)?
        }
        Err(SheetFault::Whole(lack)) => writeln!(out, "sheet {}", u32::from(lack as u8) + 5)?,
    }
    Ok(())
}
