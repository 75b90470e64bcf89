//! The steps of a bus script.

ghost use Rattle.std.specs.Prelude.{◌≡◌};
ghost use Rattle.std.specs.List.{list_all};
ghost use Rattle.nor_base.specs.Sample.{is_symbol};
ghost use Rattle.nor_base.specs.Step.{is_step as passes, are_clocks, expected, step_clocks};

use crate::bytes::Bytes;
use crate::clock::clock_of;

/// One step of a bus script. Its clocks are those of one transaction: chip select falls before the
/// first and rises after the last.
#[derive(Drop)]
pub enum Step {
    /// The transaction, once.
    Send {
        /// The symbols of its clocks.
        clocks: Bytes,
    },
    /// The transaction, again and again until bit 0 of the byte that it samples is 0.
    Poll {
        /// The symbols of its clocks.
        clocks: Bytes,
    },
    /// The transaction, once; the bytes that it samples are to be those expected.
    Verify {
        /// The symbols of its clocks.
        clocks: Bytes,
        /// The bytes expected.
        expect: Bytes,
    },
}

impl Step {
    /// The symbols of its clocks.
    pub fn clocks(&self) -> &[u8]
        ensures { result.now ≡ step_clocks self.now }
    {
        match self {
            Step::Send { clocks } | Step::Poll { clocks } | Step::Verify { clocks, .. } => {
                clocks.as_slice()
            }
        }
    }

    /// The bytes that it expects: none but of a [`Step::Verify`].
    pub fn expected(&self) -> &[u8]
        ensures { result.now ≡ expected self.now }
    {
        match self {
            Step::Send { .. } | Step::Poll { .. } => &[],
            Step::Verify { clocks: _, expect } => expect.as_slice(),
        }
    }
}

/// Whether a step has a line in a script: its clocks are symbols and not none, and so are the bytes
/// that a [`Step::Verify`] expects.
pub fn is_step(step: &Step) -> bool
    ensures { result ≡ passes step.now }
{
    match step {
        Step::Send { clocks } | Step::Poll { clocks } => are_symbols(clocks.as_slice()),
        Step::Verify { clocks, expect } => {
            are_symbols(clocks.as_slice()) && !expect.as_slice().is_empty()
        }
    }
}

fn are_symbols(clocks: &[u8]) -> bool
    ensures { result ≡ are_clocks clocks.now }
{
    !clocks.is_empty() && all_symbols(clocks)
}

fn all_symbols(clocks: &[u8]) -> bool
    ensures { result ≡ list_all is_symbol clocks.now }
{
    clocks.iter().all(|symbol| is_known(*symbol))
}

#[tactic(auto, using(crate::proofs::SymbolLaws::known_by_clock))]
fn is_known(symbol: u8) -> bool
    ensures { result ≡ is_symbol symbol }
{
    clock_of(symbol).is_some()
}
