//! A step that borrows its clocks.

ghost use Rattle.std.specs.Prelude.{◌≡◌, ◌<◌, ◌-◌, ◌^◌};
ghost use Rattle.nor_check.specs.View.{step_of};
ghost use Rattle.nor_check.specs.Witness.{in_a_row};

use nor_base::Step;

/// A step that borrows its clocks and the bytes expected.
#[derive(Clone, Copy, Drop)]
pub(crate) enum StepView<'a> {
    /// As [`Step::Send`].
    Send(&'a [u8]),
    /// As [`Step::Poll`].
    Poll(&'a [u8]),
    /// As [`Step::Verify`].
    Verify(&'a [u8], &'a [u8]),
}

/// A step as one that borrows.
pub(crate) fn view_of<'a>(step: &'a Step) -> StepView<'a>
    ensures { step_of result ≡ step.now }
{
    match step {
        Step::Send { clocks } => StepView::Send(clocks.as_slice()),
        Step::Poll { clocks } => StepView::Poll(clocks.as_slice()),
        Step::Verify { clocks, expect } => StepView::Verify(clocks.as_slice(), expect.as_slice()),
    }
}

/// How many status reads were sent in a row, with this step.
pub(crate) fn in_a_row(reads: u64, step: StepView<'_>) -> u64
    requires { reads < 2 ^ 64 - 1 }
    ensures { result ≡ in_a_row reads (step_of step.entry) }
{
    match step {
        StepView::Send(clocks) => {
            if clocks.starts_with(b"00000101") {
                reads + 1
            } else {
                0
            }
        }
        StepView::Poll(_) | StepView::Verify(_, _) => 0,
    }
}
