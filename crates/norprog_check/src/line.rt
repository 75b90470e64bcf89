//! The lines of what a check finds.

ghost use Rattle.std.specs.Prelude.{◌≡◌};
ghost use Rattle.nor_base.specs.Device.{Writes, Counts};
ghost use Rattle.nor_check.specs.declared.verdict.Verdict.TheVariants.{No};
ghost use Rattle.nor_check.specs.declared.verdict.Why.TheVariants as why;
ghost use Rattle.norprog_check.specs.Line.{verdict_text, chip_text, finding_text, number_text};
ghost use Rattle.norprog_check.specs.Line.{keep_text, limit_beside};

use crate::finding::{Finding, ShowingChip};
use itoa::Buffer;
use nor_base::{ByteOut, Failed, Wrong, put_all, put_parts};
use nor_check::{Verdict, Why};
use nor_script::hex_number;
use norprog_common::wrong_number;

/// Writes a verdict's line, closed by LF: `yes`, `no at K wrong N` or `no at K differs A`, with K
/// and N in decimal and A in eight lower-case hexadecimal digits. It takes no memory.
///
/// `Failed` comes only from the writer.
#[tactic(auto, unfolding(crate::specs::Line::verdict_text))]
pub fn write_verdict<W: ByteOut>(verdict: &Verdict, out: &mut W) -> Result<(), Failed>
    ensures bytes { Writes (W.held out.old) (W.held out.new) result (verdict_text verdict.now) }
    ensures count { Counts (W.count out.old) (W.count out.new) result }
{
    match *verdict {
        Verdict::Yes => put_all(out, b"yes\n"),
        Verdict::No { step, why } => match why {
            Why::Wrong(wrong) => write_wrong(step, wrong, out),
            Why::Differs(address) => write_differs(step, address, out),
        },
    }
}

/// Writes the line of a step that goes wrong on some chip.
fn write_wrong<W: ByteOut>(step: u64, wrong: Wrong, out: &mut W) -> Result<(), Failed>
    ensures bytes { Writes (W.held out.old) (W.held out.new) result
        (verdict_text (No step (why.Wrong wrong))) }
    ensures count { Counts (W.count out.old) (W.count out.new) result }
{
    let mut place = Buffer::new();
    let mut number = Buffer::new();
    put_parts(
        out,
        &[
            b"no at ",
            place.format(step).as_bytes(),
            b" wrong ",
            number.format(wrong_number(wrong)).as_bytes(),
            b"\n",
        ],
    )
}

/// Writes the line of an address that some chip doesn't hold right at the end.
fn write_differs<W: ByteOut>(step: u64, address: u32, out: &mut W) -> Result<(), Failed>
    ensures bytes { Writes (W.held out.old) (W.held out.new) result
        (verdict_text (No step (why.Differs address))) }
    ensures count { Counts (W.count out.old) (W.count out.new) result }
{
    let mut place = Buffer::new();
    let digits = hex_number(address);
    put_parts(
        out,
        &[
            b"no at ",
            place.format(step).as_bytes(),
            b" differs ",
            &digits,
            b"\n",
        ],
    )
}

/// As many status reads as a poll of `run` makes where no limit is given.
const DEFAULT_LIMIT: u32 = 1_000_000;

/// Writes the verdict's line, as [`write_verdict`] does, and where it is asked for that of the chip
/// that shows a no, as options of `norprog run`. Each ends with LF.
///
/// `Failed` comes only from the writer.
pub fn write_finding<W: ByteOut>(found: &Finding, witness: bool, out: &mut W) -> Result<(), Failed>
    ensures bytes { Writes (W.held out.old) (W.held out.new) result
        (finding_text witness found.now) }
    ensures count { Counts (W.count out.old) (W.count out.new) result }
{
    write_verdict(&found.verdict, out)?;
    match found.chip {
        Some(chip) if witness => write_chip(&chip, out),
        _ => Ok(()),
    }
}

/// Writes the line of a chip.
fn write_chip<W: ByteOut>(chip: &ShowingChip, out: &mut W) -> Result<(), Failed>
    ensures bytes { Writes (W.held out.old) (W.held out.new) result (chip_text chip.now) }
    ensures count { Counts (W.count out.old) (W.count out.new) result }
{
    let mut busy = Buffer::new();
    put_parts(
        out,
        &[
            b"shown by norprog run --each-busy ",
            busy.format(chip.each_busy).as_bytes(),
            keep_words(chip.keep),
        ],
    )?;
    put_number(b" --page ", widened(chip.page), out)?;
    put_number(b" --limit ", limit_for(chip.each_busy), out)?;
    put_all(out, b"\n")
}

/// The same number, if there is one.
fn widened(number: Option<u32>) -> Option<u64>
    ensures { result ≡ number }
{
    match number {
        Some(number) => Some(u64::from(number)),
        None => None,
    }
}

/// The words of a chip that keeps its latch.
fn keep_words(keep: bool) -> &'static [u8]
    ensures { result.now ≡ keep_text keep }
{
    if keep { b" --keep" } else { b"" }
}

/// The limit that a play needs on a chip that is busy for so many status reads, where that isn't
/// the default one.
fn limit_for(each_busy: u32) -> Option<u64>
    ensures { result ≡ limit_beside each_busy }
{
    if each_busy < DEFAULT_LIMIT {
        None
    } else {
        Some(u64::from(each_busy) + 1)
    }
}

/// Writes an option with its number, where there is one.
fn put_number<W: ByteOut>(words: &[u8], number: Option<u64>, out: &mut W) -> Result<(), Failed>
    ensures bytes { Writes (W.held out.old) (W.held out.new) result (number_text words.now number) }
    ensures count { Counts (W.count out.old) (W.count out.new) result }
{
    let mut digits = Buffer::new();
    match number {
        Some(number) => put_parts(out, &[words, digits.format(number).as_bytes()]),
        None => Ok(()),
    }
}
