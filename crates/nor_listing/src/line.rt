//! The line of a step.

ghost use Rattle.std.specs.Prelude.{◌≡◌, ◌++◌, codes, if◌then◌else◌, IfOk};
ghost use Rattle.std.specs.Str.{bytes_eq};
ghost use Rattle.nor_base.specs.Device.{Writes, Counts};
ghost use Rattle.nor_base.specs.Run.{poll_clocks};
ghost use Rattle.nor_base.specs.Script.{closed, step_line};
ghost use Rattle.nor_base.specs.declared.step.Step.TheVariants.{Poll};
ghost use Rattle.nor_listing.specs.Listing.{words, mode_past, line};

use crate::sent::put_sent;
use crate::verified::put_verified;
use itoa::Buffer;
use nor_base::{ByteOut, Failed, Meaning, Step, put_all, put_parts};
use nor_decode::POLL;

/// Writes the line of a step with its number, which counts from 0, on a chip that is in an address
/// mode, four-byte where `mode4` says so (docs/FORMATS.md, section 12). Returns the mode after the
/// step: an Enter (B7h) or Leave (E9h) that is sent switches it.
///
/// `Failed` comes only from the writer.
pub fn write_line<W: ByteOut>(
    meaning: &Meaning,
    number: u64,
    mode4: bool,
    step: &Step,
    out: &mut W,
) -> Result<bool, Failed>
    ensures bytes { Writes (W.held out.old) (W.held out.new) result
        (line meaning.now number mode4 step.now) }
    ensures mode { IfOk result (λ after. after ≡ mode_past meaning.now mode4 step.now) }
    ensures count { Counts (W.count out.old) (W.count out.new) result }
{
    let mut digits = Buffer::new();
    put_parts(out, &[digits.format(number).as_bytes(), b" "])?;
    put_words(meaning, mode4, step, out)
}

/// Puts what a step is, and returns the address mode after it.
pub(crate) fn put_words<W: ByteOut>(
    meaning: &Meaning,
    mode4: bool,
    step: &Step,
    out: &mut W,
) -> Result<bool, Failed>
    ensures bytes { Writes (W.held out.old) (W.held out.new) result
        (closed (words meaning.now mode4 step.now)) }
    ensures mode { IfOk result (λ after. after ≡ mode_past meaning.now mode4 step.now) }
    ensures count { Counts (W.count out.old) (W.count out.new) result }
{
    match step {
        Step::Send { clocks } => put_sent(meaning, mode4, clocks.as_slice(), out),
        Step::Poll { clocks } => {
            put_poll(clocks.as_slice(), out)?;
            Ok(mode4)
        }
        Step::Verify { clocks, expect } => {
            put_verified(meaning, mode4, clocks.as_slice(), expect.as_slice(), out)?;
            Ok(mode4)
        }
    }
}

/// Puts what clocks are that are sent until the chip is idle.
#[tactic(auto, unfolding(nor_base::specs::Script::step_line))]
fn put_poll<W: ByteOut>(clocks: &[u8], out: &mut W) -> Result<(), Failed>
    ensures bytes { Writes (W.held out.old) (W.held out.new) result
        (closed (if bytes_eq clocks.now poll_clocks then codes "poll 05"
        else codes "unknown " ++ step_line (Poll clocks.now))) }
    ensures count { Counts (W.count out.old) (W.count out.new) result }
{
    if clocks == POLL.as_slice() {
        put_all(out, b"poll 05\n")
    } else {
        put_parts(out, &[b"unknown p ", clocks, b"\n"])
    }
}
