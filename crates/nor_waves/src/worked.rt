//! Values of the waveform, worked out by hand. Each function does nothing: its contract is the
//! values, and the gate computes them.

ghost use Rattle.nor_waves.specs.Worked.{EnableTimed, EnableDriven, ReadTimed, ReadDriven};
ghost use Rattle.nor_waves.specs.Worked.{PollDriven, QuadTimed, QuadDriven, QuadReadTimed};
ghost use Rattle.nor_waves.specs.Worked.{QuadReadDriven, StrangeDriven, NothingDrawn, BitDrawn};
ghost use Rattle.nor_waves.specs.Worked.{BitsDrawn};

/// One lane: 06h sent, A5h to be read, a poll.
pub fn one_lane_worked()
    ensures timed { EnableTimed }
    ensures driven { EnableDriven }
    ensures read_timed { ReadTimed }
    ensures read { ReadDriven }
    ensures polled { PollDriven }
{}

/// Four lanes: A5h sent, and to be read after a dummy clock; and a byte that is no symbol.
pub fn four_lanes_worked()
    ensures timed { QuadTimed }
    ensures driven { QuadDriven }
    ensures read_timed { QuadReadTimed }
    ensures read { QuadReadDriven }
    ensures strange { StrangeDriven }
{}

/// Whole texts.
pub fn texts_worked()
    ensures nothing { NothingDrawn }
    ensures bit { BitDrawn }
    ensures bits { BitsDrawn }
{}
