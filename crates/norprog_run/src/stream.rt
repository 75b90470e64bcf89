//! A script that a reader gives, played as it comes.

ghost use Rattle.std.specs.Prelude.{◌≡◌, ◌≢◌, ◌<◌, true, length, IfOk, IfErr};
ghost use Rattle.nor_base.specs.Device.{one_more};
ghost use Rattle.std.specs.Io.KnownBytes.{Appends};
ghost use Rattle.nor_base.specs.Chip.{Chip as ShownChip, IsPossible, may_page};
ghost use Rattle.nor_job.specs.declared.fault.BuildFault.TheVariants.{Write};
ghost use Rattle.nor_script.specs.Stream.{HadText, IsSpelled};
ghost use Rattle.norprog_common.specs.Content.{CountsWriter};
ghost use Rattle.norprog_common.specs.declared.faults.Refusal.TheVariants.{Build};
ghost use Rattle.norprog_run.specs.Kind.{kind_setting};
ghost use Rattle.norprog_run.specs.Stream.{Blames, CountsOne, IsPlayed, PlaysText, RefusesScript};
ghost use Rattle.norprog_run.specs.Stream.{StopsText, Unplayed, refusal_of as told_of};
ghost use Rattle.nor_job.specs.Written.{passed};
ghost use Rattle.norprog_run.specs.Play.{play_of, ready_run};

use crate::kind::{Kind, kind_of};
use crate::request::ChipBehaviour;
use crate::steps::play_text;
use crate::verdict::Verdict;
use nor_base::{ByteIn, ByteOut, put_all};
use nor_chip::Chip;
use nor_job::Inputs;
use nor_script::ReadFault;
use norprog_common::{FileName, Refusal, look_through, read_content};
use std::alloc::Global;

/// Plays a script on a ready chip of the inputs. `script` is read once, as it comes, to its end or
/// its first fault; `content` gives what the chip holds, `len` bytes from address 0 on; `out` takes
/// what it holds afterwards, and isn't flushed. Memory is taken for one content and one reader of
/// steps.
///
/// The first fault is reported: of inputs, page, script, content, `out`.
pub fn play_stream<A: ByteIn, R: ByteIn, W: ByteOut>(
    alloc: Global,
    inputs: &Inputs<'_>,
    bench: ChipBehaviour,
    script: &mut A,
    content: &mut R,
    len: u64,
    out: &mut W,
) -> Result<Verdict, Refusal>
    requires bench { 0 < bench.limit }
    ensures played { IfOk result (λ verdict. HadText (A.ahead script.old) (A.ahead script.new)
        (IsPlayed (play_of inputs.now bench len
        (passed (R.ahead content.old) (R.ahead content.new) (W.held out.old) (W.held out.new)))
        verdict)) }
    ensures unplayed { IfErr result (Unplayed (play_of inputs.now bench len
        (passed (R.ahead content.old) (R.ahead content.new) (W.held out.old) (W.held out.new)))
        (A.ahead script.old) (A.ahead script.new)) }
    ensures unwritten { IfErr result (λ why. why ≢ Build Write → out.new ≡ out.old) }
    ensures blamed { IfErr result (Blames (A.count script.new ≡ one_more (A.count script.old))
        (R.count content.new ≡ one_more (R.count content.old))
        (W.count out.new ≡ one_more (W.count out.old))) }
{
    let kind = kind_of(inputs, bench.page, len)?;
    match read_content(alloc, content, kind.meaning.size) {
        Ok(array) => play_on(alloc, &kind, bench, script, array, out),
        Err(refusal) => {
            check_script(alloc, script)?;
            Err(refusal)
        }
    }
}

/// Reads a script for its fault. `File` of `Script` where its device failed.
pub(crate) fn check_script<A: ByteIn>(alloc: Global, script: &mut A) -> Result<(), Refusal>
    ensures text { IfOk result (λ _. HadText (A.ahead script.old) (A.ahead script.new) IsSpelled) }
    ensures refused { IfErr result (RefusesScript (A.ahead script.old) (A.ahead script.new)) }
    ensures count { CountsOne (A.count script.old) (A.count script.new) result }
{
    match look_through(alloc, script) {
        Ok(()) => Ok(()),
        Err(fault) => Err(refusal_of(fault)),
    }
}

/// Plays the steps of a script on a chip that holds these bytes, and writes what it holds after
/// them.
pub(crate) fn play_on<A: ByteIn, W: ByteOut>(
    alloc: Global,
    kind: &Kind,
    bench: ChipBehaviour,
    script: &mut A,
    array: Vec<u8>,
    out: &mut W,
) -> Result<Verdict, Refusal>
    requires chip { (0 < bench.limit)
        × (length array.items ≡ kind.now.meaning.size)
        × IsPossible kind.now.meaning kind.now.start
        × (may_page kind.now.meaning kind.now.page ≡ true) }
    ensures played { IfOk result (λ verdict. (chip : ShownChip)
        × HadText (A.ahead script.old) (A.ahead script.new)
        (PlaysText (ready_run (kind_setting kind.now bench) array.items bench.limit) verdict chip)
        × Appends (W.held out.old) (W.held out.new) chip.array) }
    ensures stopped { IfErr result (StopsText (passed (A.ahead script.old) (A.ahead script.new)
        (W.held out.old) (W.held out.new))
        (ready_run (kind_setting kind.now bench) array.items bench.limit)) }
    ensures unwritten { IfErr result (λ why. why ≢ Build Write → out.new ≡ out.old) }
    ensures counts { CountsOne (A.count script.old) (A.count script.new) result
        × CountsWriter (W.count out.old) (W.count out.new) result }
{
    let mut chip = Chip::with_page(
        &kind.meaning,
        kind.start,
        array,
        bench.busy,
        bench.keep,
        kind.page,
    );
    let verdict = match play_text(alloc, script, &mut chip, bench.limit) {
        Ok(verdict) => verdict,
        Err(fault) => return Err(refusal_of(fault)),
    };
    match put_all(out, chip.content()) {
        Ok(()) => Ok(verdict),
        Err(_) => Err(Refusal::WRITE),
    }
}

/// What a fault of a reading is reported as.
fn refusal_of(fault: ReadFault) -> Refusal
    ensures { result ≡ told_of fault }
{
    match fault {
        ReadFault::Script(fault) => Refusal::from(fault),
        ReadFault::Device(_) => Refusal::File(FileName::Script),
    }
}
