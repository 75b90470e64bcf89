//! The writer of listings.

ghost use Rattle.nor_base.specs.Chip.{begins4};
ghost use Rattle.nor_base.specs.Device.{Writes, Counts};
ghost use Rattle.nor_base.specs.Script.{end_line};
ghost use Rattle.nor_listing.specs.Listing.{chip_line, lines_from, unended_listing, listing};

use crate::line::write_line;
use itoa::Buffer;
use nor_base::{ByteOut, Failed, Meaning, Start, Step, put_parts};

/// Writes the listing of steps: the chip and its first address mode, a line for each step, and `end
/// N` with their number. The mode is the start's until an Enter (B7h) or Leave (E9h) is sent. The
/// steps may be such as no script has. Takes no memory. `Failed` comes only from the writer, which
/// took a proper prefix.
pub fn write_listing<W: ByteOut>(
    meaning: &Meaning,
    start: &Start,
    steps: &[Step],
    out: &mut W,
) -> Result<(), Failed>
    ensures bytes { Writes (W.held out.old) (W.held out.new) result
        (listing meaning.now (begins4 meaning.now start.now) steps.now) }
    ensures count { Counts (W.count out.old) (W.count out.new) result }
{
    write_unended(meaning, start, steps, out)?;
    finish(steps.len() as u64, out)
}

/// Writes the listing of steps without its end line, so that it is none: what is reported of steps
/// that something at fault follows. It takes no memory.
///
/// At `Failed` a proper prefix was taken; it comes only from the writer, whose count of failures
/// rose by one.
pub fn write_unended<W: ByteOut>(
    meaning: &Meaning,
    start: &Start,
    steps: &[Step],
    out: &mut W,
) -> Result<(), Failed>
    ensures bytes { Writes (W.held out.old) (W.held out.new) result
        (unended_listing meaning.now (begins4 meaning.now start.now) steps.now) }
    ensures count { Counts (W.count out.old) (W.count out.new) result }
{
    let mode4 = meaning.begins4(start);
    begin(meaning, mode4, out)?;
    put_lines(meaning, mode4, steps, out)
}

/// Writes the first line: `chip N three`, or `chip N four` where the chip begins in four-byte
/// address mode. N is its size in bytes.
///
/// At `Failed` a proper prefix was taken; it comes only from the writer, whose count of failures
/// rose by one.
#[tactic(auto, unfolding(crate::specs::Listing::chip_line))]
pub fn begin<W: ByteOut>(meaning: &Meaning, mode4: bool, out: &mut W) -> Result<(), Failed>
    ensures bytes { Writes (W.held out.old) (W.held out.new) result (chip_line meaning.now mode4) }
    ensures count { Counts (W.count out.old) (W.count out.new) result }
{
    let mut digits = Buffer::new();
    let size = digits.format(meaning.size).as_bytes();
    if mode4 {
        put_parts(out, &[b"chip ", size, b" four\n"])
    } else {
        put_parts(out, &[b"chip ", size, b" three\n"])
    }
}

/// Writes the last line, `end N` with the number of steps, as a script's.
///
/// At `Failed` a proper prefix was taken; it comes only from the writer, whose count of failures
/// rose by one.
pub fn finish<W: ByteOut>(steps: u64, out: &mut W) -> Result<(), Failed>
    ensures bytes { Writes (W.held out.old) (W.held out.new) result (end_line steps) }
    ensures count { Counts (W.count out.old) (W.count out.new) result }
{
    nor_script::finish(steps, out)
}

/// Writes the lines of steps, from an address mode on.
fn put_lines<W: ByteOut>(
    meaning: &Meaning,
    mode4: bool,
    steps: &[Step],
    out: &mut W,
) -> Result<(), Failed>
    ensures bytes { Writes (W.held out.old) (W.held out.new) result
        (lines_from meaning.now 0 mode4 steps.now) }
    ensures count { Counts (W.count out.old) (W.count out.new) result }
{
    let mut mode4 = mode4;
    for (number, step) in steps.iter().enumerate() {
        mode4 = write_line(meaning, number as u64, mode4, step, out)?;
    }
    Ok(())
}
