//! The listing of a script that comes step by step.

ghost use Rattle.std.specs.Prelude.{◌≡◌, IfOk, IfErr};
ghost use Rattle.nor_listing.specs.Listing.{line, mode_past};
ghost use Rattle.nor_script.specs.View.{step_of};
ghost use Rattle.nor_script.specs.declared.fault.ScriptFault.TheVariants.{Memory};
ghost use Rattle.nor_script.specs.declared.fault.ReadFault.TheVariants as read;
ghost use Rattle.nor_listing.specs.Stream.{Lists, PutsLine, CountsStop, CountsOut};
ghost use Rattle.nor_listing.specs.declared.stream.Stop.TheVariants.{Script, Out};
ghost use Rattle.nor_base.specs.Wire.{wire};

use crate::line::write_line;
use crate::writer::{begin, finish};
use nor_base::{ByteIn, ByteOut, Bytes, Failed, Meaning, Step};
use nor_script::{ReadFault, StepReader, StepView};
use std::alloc::{AllocError, Global};

/// Why the steps aren't all listed.
#[derive(Clone, Copy, Drop)]
pub enum Stop {
    /// The script's text, its device, or memory.
    Script(ReadFault),
    /// The output failed.
    Out(Failed),
}

impl From<ReadFault> for Stop {
    ghost from_gives = { λ fault stop. stop ≡ Script fault };

    fn from(fault: ReadFault) -> Stop {
        Stop::Script(fault)
    }
}

impl From<Failed> for Stop {
    ghost from_gives = { λ failed stop. stop ≡ Out failed };

    fn from(failed: Failed) -> Stop {
        Stop::Out(failed)
    }
}

/// Writes the listing of a script's steps on a chip that begins in this address mode, each line as
/// its step comes. Memory is taken for the longest line.
///
/// `Script` of the first fault of its text leaves the lines above the fault; where its reader
/// failed, and where a growth is refused, those of its first steps are left. At `Out` a proper
/// prefix was taken.
pub fn list_steps<R: ByteIn, W: ByteOut>(
    alloc: Global,
    meaning: &Meaning,
    first: bool,
    script: &mut R,
    out: &mut W,
) -> Result<(), Stop>
    ensures lists { Lists meaning.now first (wire (W.held out.old) (R.ahead script.old))
        (wire (W.held out.new) (R.ahead script.new)) result }
    ensures source { CountsStop (R.count script.old) (R.count script.new) result }
    ensures count { CountsOut (W.count out.old) (W.count out.new) result }
{
    begin(meaning, first, out)?;
    let mut reader = StepReader::begin(alloc, script)?;
    let mut mode4 = first;
    while reader.advance(script)? {
        mode4 = put_step(
            alloc,
            meaning,
            reader.steps() - 1,
            mode4,
            reader.view(),
            out,
        )?;
    }
    finish(reader.steps(), out)?;
    Ok(())
}

/// Writes the line of a step with its number, and returns the address mode after it.
fn put_step<W: ByteOut>(
    alloc: Global,
    meaning: &Meaning,
    number: u64,
    mode4: bool,
    step: StepView<'_>,
    out: &mut W,
) -> Result<bool, Stop>
    ensures line { PutsLine (W.held out.old) (W.held out.new) result
        (line meaning.now number mode4 (step_of step.entry)) }
    ensures mode { IfOk result (λ after. after ≡ mode_past meaning.now mode4 (step_of step.entry)) }
    ensures count { CountsOut (W.count out.old) (W.count out.new) result }
{
    let owned = owned(alloc, step)?;
    let after = write_line(meaning, number, mode4, &owned, out)?;
    Ok(after)
}

/// A copy of a step that owns its clocks; `Memory` where a growth is refused.
fn owned(alloc: Global, step: StepView<'_>) -> Result<Step, ReadFault>
    ensures step { IfOk result (λ owned. owned ≡ step_of step.entry) }
    ensures refused { IfErr result (λ fault. fault ≡ read.Script Memory) }
{
    Ok(match step {
        StepView::Send { clocks } => Step::Send {
            clocks: copied(alloc, clocks)?,
        },
        StepView::Poll { clocks } => Step::Poll {
            clocks: copied(alloc, clocks)?,
        },
        StepView::Verify { clocks, expect } => Step::Verify {
            clocks: copied(alloc, clocks)?,
            expect: copied(alloc, expect)?,
        },
    })
}

fn copied(alloc: Global, bytes: &[u8]) -> Result<Bytes, AllocError>
    ensures { IfOk result (λ copy. copy ≡ bytes.now) }
{
    let copy = Vec::from_slice(alloc, bytes)?;
    Ok(Bytes::new(copy))
}
