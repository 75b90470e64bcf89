//! How many steps a log gave.

ghost use Rattle.nor_base.specs.Device.{Writes, Counts};
ghost use Rattle.norprog_script.specs.Tally.{tally_text};

use itoa::Buffer;
use nor_base::{ByteOut, Failed, put_parts};

/// How many steps a log gave.
#[derive(Clone, Copy)]
pub struct Tally {
    /// Steps of the script.
    pub steps: u64,
    /// Steps that were left out.
    pub left_out: u64,
}

/// Writes `steps N` and `left out M`, a line each.
///
/// At `Failed` a proper prefix was taken; it comes only from the writer, whose count of failures
/// rose by one.
#[tactic(auto, unfolding(crate::specs::Tally::tally_text))]
pub fn write_tally<W: ByteOut>(tally: Tally, out: &mut W) -> Result<(), Failed>
    ensures bytes { Writes (W.held out.old) (W.held out.new) result (tally_text tally) }
    ensures count { Counts (W.count out.old) (W.count out.new) result }
{
    let mut steps = Buffer::new();
    let mut left_out = Buffer::new();
    put_parts(
        out,
        &[
            b"steps ",
            steps.format(tally.steps).as_bytes(),
            b"\nleft out ",
            left_out.format(tally.left_out).as_bytes(),
            b"\n",
        ],
    )
}
