//! A waveform in the making.

ghost use Rattle.std.specs.Prelude.{◌≡◌, ◌++◌, IfOk, flat_map};
ghost use Rattle.nor_base.specs.Device.{Writes, Counts};
ghost use Rattle.nor_waves.specs.Drawing.{after, drawn};
ghost use Rattle.nor_waves.specs.Ticks.{clocks_ticks, gap, step_ticks};
ghost use Rattle.nor_waves.specs.Waves.{stamp, stamped};

use crate::lanes::{clock_ticks, lanes_in, sample_at};
use crate::wires::{Levels, changes};
use itoa::Buffer;
use nor_base::{ByteOut, Failed, Step, put_parts};

/// The ticks between transactions.
const GAP: [Levels; 4] = [Levels::IDLE; 4];

/// How far it is drawn.
#[derive(Clone, Copy)]
pub(crate) struct Drawing {
    /// The tick that comes next, counted from 0 in 64 bits.
    pub tick: u64,
    /// What is on the wires before it.
    pub levels: Levels,
}

impl Drawing {
    /// Draws steps, and returns how far it is drawn then.
    pub(crate) fn put_steps<W: ByteOut>(
        self,
        steps: &[Step],
        out: &mut W,
    ) -> Result<Drawing, Failed>
        ensures bytes { Writes (W.held out.old) (W.held out.new) result
            (drawn self (flat_map step_ticks steps.now)) }
        ensures drawn { IfOk result (λ at. at ≡ after self (flat_map step_ticks steps.now)) }
        ensures count { Counts (W.count out.old) (W.count out.new) result }
    {
        let mut at = self;
        for step in steps {
            at = at.put_step(step, out)?;
        }
        Ok(at)
    }

    /// Draws a step and the gap before it.
    fn put_step<W: ByteOut>(self, step: &Step, out: &mut W) -> Result<Drawing, Failed>
        ensures bytes { Writes (W.held out.old) (W.held out.new) result
            (drawn self (step_ticks step.now)) }
        ensures drawn { IfOk result (λ at. at ≡ after self (step_ticks step.now)) }
        ensures count { Counts (W.count out.old) (W.count out.new) result }
    {
        let at = self.put_gap(out)?;
        at.put_clocks(step.clocks(), step.expected(), out)
    }

    /// Draws the gap between transactions.
    pub(crate) fn put_gap<W: ByteOut>(self, out: &mut W) -> Result<Drawing, Failed>
        ensures bytes { Writes (W.held out.old) (W.held out.new) result (drawn self gap) }
        ensures drawn { IfOk result (λ at. at ≡ after self gap) }
        ensures count { Counts (W.count out.old) (W.count out.new) result }
    {
        self.put_ticks(&GAP, out)
    }

    /// Draws clocks. Lanes that are sampled show the bits of `expect`.
    fn put_clocks<W: ByteOut>(
        self,
        clocks: &[u8],
        expect: &[u8],
        out: &mut W,
    ) -> Result<Drawing, Failed>
        ensures bytes { Writes (W.held out.old) (W.held out.new) result
            (drawn self (clocks_ticks expect.now 0 clocks.now)) }
        ensures drawn { IfOk result (λ at. at ≡ after self (clocks_ticks expect.now 0 clocks.now)) }
        ensures count { Counts (W.count out.old) (W.count out.new) result }
    {
        let mut at = self;
        let mut place: u128 = 0;
        for symbol in clocks {
            let sample = sample_at(*symbol);
            at = at.put_ticks(&clock_ticks(expect, place, sample), out)?;
            place += u128::from(lanes_in(sample.sampled));
        }
        Ok(at)
    }

    /// Draws ticks.
    fn put_ticks<W: ByteOut>(self, ticks: &[Levels], out: &mut W) -> Result<Drawing, Failed>
        ensures bytes { Writes (W.held out.old) (W.held out.new) result (drawn self ticks.now) }
        ensures drawn { IfOk result (λ at. at ≡ after self ticks.now) }
        ensures count { Counts (W.count out.old) (W.count out.new) result }
    {
        let mut at = self;
        for now in ticks {
            let lines = changes(&at.levels, now);
            put_stamped(at.tick, lines.as_slice(), out)?;
            at = Drawing {
                tick: at.tick.wrapping_add(1),
                levels: *now,
            };
        }
        Ok(at)
    }
}

/// Puts the lines of what changes at a tick, if any, and the tick's stamp before them.
fn put_stamped<W: ByteOut>(tick: u64, lines: &[u8], out: &mut W) -> Result<(), Failed>
    ensures bytes { Writes (W.held out.old) (W.held out.new) result (stamped tick lines.now) }
    ensures count { Counts (W.count out.old) (W.count out.new) result }
{
    if lines.is_empty() {
        return Ok(());
    }
    put_stamp(tick, lines, out)
}

/// Puts a tick's stamp, and lines behind it.
#[tactic(auto, unfolding(crate::specs::Waves::stamp))]
pub(crate) fn put_stamp<W: ByteOut>(tick: u64, lines: &[u8], out: &mut W) -> Result<(), Failed>
    ensures bytes { Writes (W.held out.old) (W.held out.new) result (stamp tick ++ lines.now) }
    ensures count { Counts (W.count out.old) (W.count out.new) result }
{
    let mut digits = Buffer::new();
    put_parts(out, &[b"#", digits.format(tick).as_bytes(), b"\n", lines])
}
