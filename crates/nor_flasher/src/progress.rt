//! How far work has come.

ghost use Rattle.std.specs.Prelude.{◌≡◌, ◌-◌, ◌^◌, false, min, sum_by};
ghost use Rattle.nor_flasher.specs.Progress.{step_bytes, none_done};

use itoa::Buffer;
use nor_base::{ByteOut, Failed, Step, put_all, put_parts};
use std::marker::Model;

/// After how many steps it is reported again.
const EVERY: u64 = 100;

/// How many steps are done, and how many bytes of theirs went over the bus, of all. Numbers past
/// 2^64 - 1 stay there.
///
/// One may go on over several calls of [`do_part`](crate::do_part); [`Progress::end`] after the
/// last.
#[derive(Drop)]
pub struct Progress {
    steps: u64,
    bytes: u64,
    all_steps: u64,
    all_bytes: u64,
    /// Some line was written.
    shown: bool,
    /// No line failed.
    works: bool,
}

impl Model for Progress {
    ghost use Rattle.nor_flasher.specs.Progress.{Far};

    ghost Value = { Far };

    ghost use Rattle.std.specs.Prelude.{◌&&◌};

    ghost view = { λ p. record {
      steps = p.steps;
      bytes = p.bytes;
      all_steps = p.all_steps;
      all_bytes = p.all_bytes;
      is_open = p.works && p.shown;
    } };
}

impl Progress {
    /// None of so many steps is done, of which so many bytes go over the bus ([`bus_bytes`]).
    pub fn of(all_steps: u64, all_bytes: u64) -> Progress
        ensures { result ≡ none_done all_steps all_bytes }
    {
        Progress {
            steps: 0,
            bytes: 0,
            all_steps,
            all_bytes,
            shown: false,
            works: true,
        }
    }

    /// One more step is done. A line is written after each hundred and at the end, until the writer
    /// fails.
    fn step_done<P: ByteOut>(&mut self, step: &Step, out: &mut P) {
        self.steps = self.steps.saturating_add(1);
        self.bytes = self.bytes.saturating_add(bytes(step));
        if self.is_due() {
            self.works = self.write_line(out).is_ok();
            self.shown = true;
        }
    }

    /// These steps are done, one after the other.
    pub(crate) fn row_done<P: ByteOut>(&mut self, row: &[Step], out: &mut P) {
        for step in row {
            self.step_done(step, out);
        }
    }

    /// Closes the line, where one was written and none failed.
    pub fn end<P: ByteOut>(self, out: &mut P)
        ensures quiet { self.is_open ≡ false → out.new ≡ out.old }
    {
        if self.works && self.shown {
            let _ = put_all(out, b"\n");
        }
    }

    /// Whether a line is due.
    fn is_due(&self) -> bool {
        self.works && (self.steps % EVERY == 0 || self.steps == self.all_steps)
    }

    /// Writes over the line that reports it: `step N of M, B of C bytes`.
    fn write_line<P: ByteOut>(&self, out: &mut P) -> Result<(), Failed> {
        let mut steps = Buffer::new();
        let mut all_steps = Buffer::new();
        let mut bytes = Buffer::new();
        let mut all_bytes = Buffer::new();
        put_parts(
            out,
            &[
                b"\rstep ",
                steps.format(self.steps).as_bytes(),
                b" of ",
                all_steps.format(self.all_steps).as_bytes(),
                b", ",
                bytes.format(self.bytes).as_bytes(),
                b" of ",
                all_bytes.format(self.all_bytes).as_bytes(),
                b" bytes",
            ],
        )
    }
}

/// How many bytes of these steps go over the bus, eight clocks for each: at most 2^64 - 1.
pub fn bus_bytes(steps: &[Step]) -> u64
    ensures { result ≡ min (2 ^ 64 - 1) (sum_by step_bytes steps.now) }
{
    let mut all: u64 = 0;
    for step in steps {
        all = all.saturating_add(bytes(step));
    }
    all
}

/// The bytes of a step on the bus.
fn bytes(step: &Step) -> u64
    ensures { result ≡ step_bytes step.now }
{
    step.clocks().len() as u64 / 8
}
