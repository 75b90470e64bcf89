//! How long a plan takes, whose lines come piece after piece.

ghost use Rattle.std.specs.Prelude.{◌≡◌, ◌+◌, ◌<◌, ◌^◌, [], ◌++◌, Bool, List, Option};
ghost use Rattle.std.specs.Prelude.{count_by, option_map};
ghost use Rattle.nor_base.specs.declared.meaning.Start.{Start};
ghost use Rattle.nor_base.specs.Device.{Writes, Counts};
ghost use Rattle.nor_base.specs.Parameters.{Parameters};
ghost use Rattle.nor_outline.specs.declared.line.PlanLine.{PlanLine};
ghost use Rattle.nor_times.specs.declared.times.Times.{Times};
ghost use Rattle.nor_times.specs.Bus.{bus_of, is_work};
ghost use Rattle.nor_times.specs.Busy.{busy_of};
ghost use Rattle.nor_times.specs.Text.{times_text};
ghost use Rattle.nor_times.specs.Timing.{timing_of};

use crate::bus::{Job, end_after, works_in};
use crate::busy::{Busy, known_busy};
use crate::times::Times;
use crate::writer::write_times;
use nor_base::{ByteOut, Failed, Meaning, Start};
use nor_outline::PlanLine;
use std::marker::Model;

/// How long a plan takes, whose lines come piece after piece: the exact sums over all of them
/// (docs/FORMATS.md, "Times"). It takes no memory, however many lines there are.
#[derive(Drop)]
pub struct PlanTimes<'m> {
    job: Job<'m>,
    /// What the chip's tables say of its times, if they do.
    times: Option<Times>,
    /// How many lines report an instruction.
    works: u64,
    /// The end of the block that was erased last.
    end: u64,
    /// The clocks of the lines.
    clocks: u128,
    /// How long the chip is busy with them, where its times are known.
    busy: Busy,
}

impl<'m> Model for PlanTimes<'m> {
    ghost use Rattle.nor_times.specs.Timing.{AreFew, Timing};

    ghost Value = { Timing };

    ghost view = { λ p. record {
      works = p.works;
      sums = record {
        doing = p.job;
        times = p.times;
        end = p.end;
        clocks = p.clocks;
        busy = p.busy;
      };
    } };

    ghost invariant = { λ p. AreFew p.works p.clocks p.busy };
}

impl<'m> PlanTimes<'m> {
    /// Of no lines yet, on a chip that begins so. With `verify` each page of an erased block is
    /// read, and each program past it. `times` is what the chip's tables say, if they do.
    pub fn new(
        meaning: &'m Meaning,
        start: &Start,
        verify: bool,
        times: Option<Times>,
    ) -> PlanTimes<'m>
        ensures { result ≡ timing_of meaning.now start.now verify times [] }
    {
        PlanTimes {
            job: Job::new(meaning, start, verify),
            times,
            works: 0,
            end: 0,
            clocks: 0,
            busy: Busy {
                typical: 0,
                worst: 0,
            },
        }
    }

    /// Adds the next lines; the block that was erased last may be of a piece before.
    pub fn add(&mut self, lines: &[PlanLine])
        requires { self.old.works + count_by is_work lines.now < 2 ^ 64 }
        ensures { (m : Parameters) (start : Start) (verify : Bool) (times : Option Times)
            (told : List PlanLine) → self.old ≡ timing_of m start verify times told
            → self.new ≡ timing_of m start verify times (told ++ lines.now) }
    {
        let clocks = self.job.lines_clocks(self.end, lines);
        let busy = known_busy(self.times, self.job.meaning(), lines);
        self.clocks += clocks;
        self.busy.typical += busy.typical;
        self.busy.worst += busy.worst;
        self.end = end_after(self.end, lines);
        self.works += works_in(lines);
    }

    /// Writes the two lines of times, each closed by LF: `busy n ms typical n ms worst`, rounded
    /// up, or `busy unknown` where the chip's tables have no times; and `bus n clocks`, of the
    /// script that `build` writes, each poll once. Numbers are in decimal.
    ///
    /// `Failed` comes only from the writer.
    pub fn write<W: ByteOut>(&self, out: &mut W) -> Result<(), Failed>
        ensures bytes { (m : Parameters) (start : Start) (verify : Bool) (times : Option Times)
            (told : List PlanLine) → self.now ≡ timing_of m start verify times told
            → Writes (W.held out.old) (W.held out.new) result
            (times_text (option_map (λ t. busy_of t m told) times)
            (bus_of m start verify told)) }
        ensures count { Counts (W.count out.old) (W.count out.new) result }
    {
        write_times(self.busy_time(), self.bus_clocks(), out)
    }

    /// How long the chip is busy with the lines, where its times are known.
    fn busy_time(&self) -> Option<Busy>
        ensures { (m : Parameters) (start : Start) (verify : Bool) (times : Option Times)
            (told : List PlanLine) → self.now ≡ timing_of m start verify times told
            → result ≡ option_map (λ t. busy_of t m told) times }
    {
        match self.times {
            None => None,
            Some(_) => Some(self.busy),
        }
    }

    /// The clocks of the lines, and of the mode that they need.
    fn bus_clocks(&self) -> u128
        ensures { (m : Parameters) (start : Start) (verify : Bool) (times : Option Times)
            (told : List PlanLine) → self.now ≡ timing_of m start verify times told
            → result ≡ bus_of m start verify told }
    {
        u128::from(self.job.mode_clocks(self.works)) + self.clocks
    }
}
