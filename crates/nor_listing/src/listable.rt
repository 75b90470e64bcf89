//! Which steps a listing may have.

ghost use Rattle.std.specs.Prelude.{◌≡◌, ◌<◌, ◌^◌, IsTrue, length, true};
ghost use Rattle.nor_base.specs.Array.{are_bytes};
ghost use Rattle.nor_base.specs.Step.{expected, is_step as passes, step_clocks};
ghost use Rattle.nor_listing.specs.Law.{IsListable};

use nor_base::{Step, is_step};

/// Whether a listing may have a step.
pub(crate) fn is_listable(step: &Step) -> bool
    ensures value { result ≡ passes step.now }
    ensures listable { IsTrue result → IsListable step.now }
{
    has_few_clocks(step);
    expects_bytes(step);
    is_step(step)
}

fn has_few_clocks(step: &Step)
    ensures { length (step_clocks step.now) < 2 ^ 64 }
{
    let _count = step.clocks().len();
}

fn expects_bytes(step: &Step)
    ensures { are_bytes (expected step.now) ≡ true }
{
    match step {
        Step::Send { .. } | Step::Poll { .. } => {}
        Step::Verify { expect, .. } => are_bytes(expect.as_slice()),
    }
}

fn are_bytes(_bytes: &[u8])
    ensures { are_bytes _bytes.now ≡ true }
{}
