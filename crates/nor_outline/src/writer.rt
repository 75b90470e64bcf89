//! Writes the lines of a plan.

ghost use Rattle.std.specs.Prelude.{◌≡◌};
ghost use Rattle.nor_base.specs.Device.{Writes, Counts};
ghost use Rattle.nor_base.specs.Script.{closed};
ghost use Rattle.nor_outline.specs.declared.line.PlanLine.TheVariants.{Erase, Because, Program};
ghost use Rattle.nor_outline.specs.Lines.{line_text, line_words, lines_text};

use crate::line::PlanLine;
use itoa::Buffer;
use nor_base::{ByteOut, Failed, put_parts};
use nor_script::{hex_number, hex_pair};

/// Writes lines of a plan one after another, each closed by LF.
///
/// It takes no memory. At `Failed` a proper prefix was taken; it comes only from the writer.
pub fn write_lines<W: ByteOut>(lines: &[PlanLine], out: &mut W) -> Result<(), Failed>
    ensures bytes { Writes (W.held out.old) (W.held out.new) result (lines_text lines.now) }
    ensures count { Counts (W.count out.old) (W.count out.new) result }
{
    for line in lines {
        write_line(*line, out)?;
    }
    Ok(())
}

/// Writes a line of a plan, closed by LF. The number of bytes of a program is in decimal, all other
/// numbers are in lower-case hexadecimal digits.
///
/// It takes no memory. `Failed` comes only from the writer.
pub fn write_line<W: ByteOut>(line: PlanLine, out: &mut W) -> Result<(), Failed>
    ensures bytes { Writes (W.held out.old) (W.held out.new) result (line_text line) }
    ensures count { Counts (W.count out.old) (W.count out.new) result }
    ensures words { line_text line ≡ closed (line_words line) }
{
    match line {
        PlanLine::Erase {
            start,
            size,
            opcode,
        } => put_erase(start, size, opcode, out),
        PlanLine::Because { start, cause } => put_because(start, cause, out),
        PlanLine::Program { start, count } => put_program(start, count, out),
    }
}

/// Puts the line of a block that is erased.
fn put_erase<W: ByteOut>(start: u32, size: u32, opcode: u8, out: &mut W) -> Result<(), Failed>
    ensures bytes { Writes (W.held out.old) (W.held out.new) result
        (line_text (Erase start size opcode)) }
    ensures count { Counts (W.count out.old) (W.count out.new) result }
{
    put_parts(
        out,
        &[
            b"erase ",
            &hex_number(start),
            b" ",
            &hex_number(size),
            b" ",
            &hex_pair(opcode),
            b"\n",
        ],
    )
}

/// Puts the line that says why.
fn put_because<W: ByteOut>(start: u32, cause: u32, out: &mut W) -> Result<(), Failed>
    ensures bytes { Writes (W.held out.old) (W.held out.new) result
        (line_text (Because start cause)) }
    ensures count { Counts (W.count out.old) (W.count out.new) result }
{
    put_parts(
        out,
        &[
            b"because ",
            &hex_number(start),
            b" ",
            &hex_number(cause),
            b"\n",
        ],
    )
}

/// Puts the line of a run that is programmed.
fn put_program<W: ByteOut>(start: u32, count: u32, out: &mut W) -> Result<(), Failed>
    ensures bytes { Writes (W.held out.old) (W.held out.new) result
        (line_text (Program start count)) }
    ensures count { Counts (W.count out.old) (W.count out.new) result }
{
    let mut digits = Buffer::new();
    put_parts(
        out,
        &[
            b"program ",
            &hex_number(start),
            b" ",
            digits.format(count).as_bytes(),
            b"\n",
        ],
    )
}
