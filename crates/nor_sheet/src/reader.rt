//! The reader of a sheet.

ghost use Rattle.std.specs.Prelude.{◌≡◌, IfErr, IfOk, IfSome};
ghost use Rattle.nor_sheet.specs.Limits.{IsSaid};
ghost use Rattle.nor_sheet.specs.Line.{line_says};
ghost use Rattle.nor_sheet.specs.Meaning.{meaning_of};
ghost use Rattle.nor_sheet.specs.Sheet.{AreSaid};
ghost use Rattle.nor_sheet.specs.Text.{IsSheet, Refuses, numbered, of_whole, said_below};

use crate::fault::{LineFault, SheetFault};
use crate::line::line_says;
use crate::meaning::meaning_of;
use crate::sheet::Sheet;
use nor_base::Meaning;
use nor_lines::filled;

/// What a sheet says of a chip: the lines that `norprog sfdp` prints, in any order, with comments
/// from `#` on. What isn't said is absent; size, page, address bytes and regions have to be.
///
/// The first line at fault is reported, with the first of its faults; else the first thing that the
/// whole lacks.
pub fn read(text: &[u8]) -> Result<Meaning, SheetFault>
    ensures accepted { IfOk result (IsSheet text.now) }
    ensures refused { IfErr result (Refuses text.now) }
{
    let mut sheet = Sheet::empty();
    for (number, line) in filled(text) {
        sheet = sheet_below(sheet, number, line)?;
    }
    whole(sheet)
}

/// A sheet, and what a line below it says too.
fn sheet_below(sheet: Sheet, number: u64, line: &[u8]) -> Result<Sheet, SheetFault>
    ensures value { result ≡ numbered number (said_below sheet (line_says line.now)) }
    ensures said { IfOk (line_says line.now) (λ said. IfSome said IsSaid) }
{
    match with_line(sheet, line) {
        Ok(sheet) => Ok(sheet),
        Err(fault) => Err(SheetFault::Line(number, fault)),
    }
}

/// The same, without the line's number.
fn with_line(sheet: Sheet, line: &[u8]) -> Result<Sheet, LineFault>
    ensures value { result ≡ said_below sheet (line_says line.now) }
    ensures said { IfOk (line_says line.now) (λ said. IfSome said IsSaid) }
{
    match line_says(line)? {
        None => Ok(sheet),
        Some(said) => sheet.with(said),
    }
}

/// What a sheet means.
fn whole(sheet: Sheet) -> Result<Meaning, SheetFault>
    requires { AreSaid sheet }
    ensures { result ≡ of_whole (meaning_of sheet) }
{
    match meaning_of(sheet) {
        Ok(meaning) => Ok(meaning),
        Err(lack) => Err(SheetFault::Whole(lack)),
    }
}
