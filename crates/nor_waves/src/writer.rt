//! The writer of waveforms.

ghost use Rattle.nor_base.specs.Device.{Writes, Counts};
ghost use Rattle.nor_waves.specs.Waves.{header, waves};

use crate::drawing::{Drawing, put_stamp};
use crate::wires::Levels;
use nor_base::{ByteOut, Failed, Step, put_all};

/// The wires, and what is on them at tick 0.
const HEADER: &[u8] = b"$timescale 10 ns $end
$scope module norprog $end
$var wire 1 ! CS# $end
$var wire 1 \" CLK $end
$var wire 1 # IO0 $end
$var wire 1 $ IO1 $end
$var wire 1 % IO2 $end
$var wire 1 & IO3 $end
$var wire 1 ' SMP $end
$upscope $end
$enddefinitions $end
#0
$dumpvars
1!
0\"
z#
z$
z%
z&
0'
$end
";

/// Writes the waveform of steps as a Value Change Dump (IEEE 1364) of the wires `CS#`, `CLK`, `IO0`
/// to `IO3` and `SMP` (docs/FORMATS.md, "Waveform"). A poll is drawn once. The steps may also be
/// such as no script has. It takes no memory.
///
/// `Failed` comes only from the writer.
pub fn write_waves<W: ByteOut>(steps: &[Step], out: &mut W) -> Result<(), Failed>
    ensures bytes { Writes (W.held out.old) (W.held out.new) result (waves steps.now) }
    ensures count { Counts (W.count out.old) (W.count out.new) result }
{
    put_header(out)?;
    let begin = Drawing {
        tick: 0,
        levels: Levels::IDLE,
    };
    let at = begin.put_steps(steps, out)?;
    let end = at.put_gap(out)?;
    put_stamp(end.tick, b"", out)
}

/// Puts the header.
#[tactic(auto, unfolding(crate::specs::Waves::header))]
fn put_header<W: ByteOut>(out: &mut W) -> Result<(), Failed>
    ensures bytes { Writes (W.held out.old) (W.held out.new) result header }
    ensures count { Counts (W.count out.old) (W.count out.new) result }
{
    put_all(out, HEADER)
}
