//! A step that borrows its clocks.

/// A step that borrows its clocks. The specifications name the [`nor_base::Step`] that it shows by
/// `step_of`.
#[derive(Clone, Copy, Drop)]
pub enum StepView<'a> {
    /// As [`nor_base::Step::Send`].
    Send {
        /// The symbols of its clocks.
        clocks: &'a [u8],
    },
    /// As [`nor_base::Step::Poll`].
    Poll {
        /// The symbols of its clocks.
        clocks: &'a [u8],
    },
    /// As [`nor_base::Step::Verify`].
    Verify {
        /// The symbols of its clocks.
        clocks: &'a [u8],
        /// The bytes expected.
        expect: &'a [u8],
    },
}
