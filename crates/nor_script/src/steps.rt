//! The reader that gives a script's steps one after another.

ghost use Rattle.std.specs.Prelude.{◌≡◌, ◌<◌, ◌≤◌, ◌+◌, ◌^◌, true, length, IfOk, IfErr};
ghost use Rattle.nor_script.specs.View.{step_of};
ghost use Rattle.nor_script.specs.Line.{step_fault};
ghost use Rattle.nor_script.specs.Lines.{IsFirstLine, ReadsEnd, ReadsStep};
ghost use Rattle.nor_script.specs.Parts.{TellsFault};
ghost use Rattle.nor_script.specs.Stream.{reading, Advances, Begins, CountsRead, CountsStep};
ghost use Rattle.nor_script.specs.Stream.{HadText, IsScriptOf, StopsReader, TellsScript};
ghost use Rattle.nor_script.specs.declared.fault.ScriptFault.TheVariants.{Memory};

use crate::fault::{ReadFault, ScriptFault};
use crate::hexadecimal::decode;
use crate::line::{Kind, check_count, parts_on};
use crate::lines::LineBuffer;
use crate::view::StepView;
use nor_base::ByteIn;
use std::alloc::Global;
use std::marker::Model;

/// How many steps are read at most, 2^62.
const MOST: u64 = 1 << 62;

/// Reads a script out of a device, step by step, in a buffer that it uses again.
///
/// The buffer has room for 256 KiB at first, and grows to twice its size where a line fills half of
/// it or more; so a line of any length is read. A step's clocks are borrowed from the buffer, and
/// the bytes that it expects from a second one.
#[derive(Drop)]
pub struct StepReader {
    lines: LineBuffer,
    kind: Kind,
    from: usize,
    upto: usize,
    expect: Vec<u8>,
    steps: u64,
}

impl Model for StepReader {
    ghost use Rattle.nor_script.specs.Stream.{Steps};

    ghost Value = { Steps };

    ghost use Rattle.std.specs.Prelude.{◌≤◌, ◌^◌, length, slice_range};
    ghost use Rattle.nor_script.specs.LineParts.{step_by};

    ghost view = { λ s. record {
      held = s.lines.held;
      step = step_by s.kind (slice_range s.lines.line s.from s.upto) s.expect.items;
      steps = s.steps;
    } };

    ghost invariant = { λ s. (s.from ≤ s.upto) × (s.upto ≤ length s.lines.line)
        × (s.steps ≤ 2 ^ 62) };
}

impl StepReader {
    /// Begins to read: the header line.
    ///
    /// `Header`, line 1, where the text doesn't begin with it; `Device` where the device failed;
    /// `Memory` where a growth is refused.
    pub fn begin<R: ByteIn>(alloc: Global, source: &mut R) -> Result<StepReader, ReadFault>
        ensures begun { Begins (R.ahead source.old) (R.ahead source.new) result }
        ensures count { CountsRead (R.count source.old) (R.count source.new) result }
    {
        let mut lines = LineBuffer::new(alloc);
        if !lines.read_header(source)? {
            return Err(ReadFault::Script(ScriptFault::Header(1)));
        }
        Ok(StepReader {
            lines,
            kind: Kind::Send,
            from: 0,
            upto: 0,
            expect: Vec::new(alloc),
            steps: 0,
        })
    }

    /// Goes on to the next step, which [`StepReader::view`] shows then. `false` where the end line
    /// came and the device is at its end; after that it is `NoEnd`.
    ///
    /// A fault is that which [`crate::read`] has of the whole text; `Device` where the device
    /// failed; `Memory` where a growth is refused, or after 2^62 steps. A call after `Device` tries
    /// again.
    pub fn advance<R: ByteIn>(&mut self, source: &mut R) -> Result<bool, ReadFault>
        ensures step { Advances (reading (R.ahead source.old) self.old.held)
            (reading (R.ahead source.new) self.new.held)
            self.old.steps self.new.step result }
        ensures number { CountsStep self.old.steps self.new.steps result }
        ensures bound { self.new.steps ≤ 2 ^ 62 }
        ensures count { CountsRead (R.count source.old) (R.count source.new) result }
    {
        self.from = 0;
        self.upto = 0;
        if !self.lines.find_line(source)? {
            return Err(ReadFault::Script(ScriptFault::NoEnd(self.steps + 2)));
        }
        if let Some(count) = self.lines.line().strip_prefix(b"end ") {
            check_count(self.steps, count)?;
            return read_end(&mut self.lines, self.steps, source);
        }
        let (kind, upto) = read_step(&mut self.lines, &mut self.expect, self.steps)?;
        self.kind = kind;
        self.from = 2;
        self.upto = upto;
        self.steps += 1;
        Ok(true)
    }

    /// The step read last. It means nothing before the first, after the end and after a fault.
    pub fn view(&self) -> StepView<'_>
        ensures { step_of result ≡ self.now.step }
    {
        let clocks = &self.lines.line()[self.from..self.upto];
        match self.kind {
            Kind::Send => StepView::Send { clocks },
            Kind::Poll => StepView::Poll { clocks },
            Kind::Verify => StepView::Verify {
                clocks,
                expect: self.expect.as_slice(),
            },
        }
    }

    /// How many steps were read.
    pub fn steps(&self) -> u64
        ensures { result ≡ self.now.steps }
    {
        self.steps
    }
}

/// Whether all that a device has ahead is a script: the number of its steps. Of a device that
/// doesn't tell its bytes this is said of some text.
///
/// Else its first fault, as [`crate::read`] reports it; `Device` where the device failed; `Memory`
/// where a growth is refused, or the script has more than 2^62 steps.
pub fn count_steps<R: ByteIn>(alloc: Global, source: &mut R) -> Result<u64, ReadFault>
    ensures text { TellsScript (R.ahead source.old) (R.ahead source.new) result }
    ensures read { IfOk result
        (λ count. HadText (R.ahead source.old) (R.ahead source.new)
        (λ text. IsScriptOf text count)) }
    ensures stopped { IfErr result (StopsReader (R.ahead source.old) (R.ahead source.new)) }
    ensures count { CountsRead (R.count source.old) (R.count source.new) result }
{
    let mut reader = StepReader::begin(alloc, source)?;
    while reader.advance(source)? {}
    Ok(reader.steps())
}

/// Reads the end line found, behind which nothing stands.
fn read_end<R: ByteIn>(
    lines: &mut LineBuffer,
    steps: u64,
    source: &mut R,
) -> Result<bool, ReadFault>
    requires steps { steps ≤ 2 ^ 62 }
    requires line { IsFirstLine lines.old }
    ensures bytes { ReadsEnd (reading (R.ahead source.old) lines.old.held)
        (reading (R.ahead source.new) lines.new.held)
        lines.old.line steps result }
    ensures count { CountsRead (R.count source.old) (R.count source.new) result }
{
    if lines.goes_on(source)? {
        return Err(ReadFault::Script(ScriptFault::AfterEnd(steps + 3)));
    }
    lines.read_held();
    Ok(false)
}

/// Reads the line found, which is no end line: the kind of its step, and where its clocks end,
/// which begin behind two bytes.
fn read_step(
    lines: &mut LineBuffer,
    expect: &mut Vec<u8>,
    steps: u64,
) -> Result<(Kind, usize), ScriptFault>
    requires steps { steps ≤ 2 ^ 62 }
    requires line { IsFirstLine lines.old }
    ensures read { IfOk result
        (λ read. ReadsStep lines.old lines.new read.0 read.1 expect.new.items) }
    ensures more { IfOk result (λ _. steps < 2 ^ 62) }
    ensures refused { IfErr result (λ fault. (lines.new ≡ lines.old)
        × TellsFault (step_fault (steps + 2) lines.old.line) fault) }
{
    if steps == MOST {
        return Err(ScriptFault::Memory);
    }
    let parts = parts_on(steps + 2, lines.line())?;
    decode(parts.digits, expect)?;
    let kind = parts.kind;
    let upto = 2 + parts.clocks.len();
    lines.read_line();
    Ok((kind, upto))
}
