//! What a check says.

ghost use Rattle.std.specs.Prelude.{◌≡◌, if◌then◌else◌};
ghost use Rattle.nor_check.specs.declared.verdict.CheckFault.TheVariants.{Memory};
ghost use Rattle.nor_check.specs.Order.{rank_of, rank, is_before, earlier};
ghost use Rattle.nor_check.specs.Pages.{first_of, is_sooner};

use nor_base::Wrong;
use std::alloc::AllocError;
use thiserror::Error;

/// Whether steps do a task on every chip.
#[derive(Clone, Copy, PartialEq, Eq, Drop)]
pub enum Verdict {
    /// They do.
    Yes,
    /// On some chip they don't, and on none do they go wrong at an earlier step.
    No {
        /// The step, counted from 0; the number of steps where it goes wrong at the end.
        step: u64,
        /// How it goes wrong there, on some chip.
        why: Why,
    },
}

/// Why steps don't do a task.
#[derive(Clone, Copy, PartialEq, Eq, Drop)]
pub enum Why {
    /// A chip goes wrong so.
    Wrong(Wrong),
    /// At the end the array of a chip isn't the target at this address, the lowest such.
    Differs(u32),
}

/// A chip that shows a no. Beside these numbers it has the meaning and the start of the check, each
/// of its programs and erases is busy for one number of status reads, any above `reads`, and it
/// keeps a set latch just where the step of the verdict is the number of steps.
#[derive(Clone, Copy, PartialEq, Eq, Drop)]
pub struct Witness {
    /// How many status reads are sent right before the step, in a row.
    pub reads: u64,
    /// The bytes of its page.
    pub page: u32,
}

/// Why there is no verdict.
#[derive(Clone, Copy, Debug, PartialEq, Eq, Drop, Error)]
pub enum CheckFault {
    /// A growth of memory was refused.
    #[error("out of memory")]
    Memory,
}

impl From<AllocError> for CheckFault {
    ghost from_gives = { λ _ fault. fault ≡ Memory };

    fn from(_error: AllocError) -> CheckFault {
        CheckFault::Memory
    }
}

/// The place of a cause among those of one step.
fn rank_of(cause: Wrong) -> u64
    ensures { result ≡ rank_of cause }
{
    match cause {
        Wrong::Unknown => 0,
        Wrong::Ignored => 1,
        Wrong::OutOfRange => 2,
        Wrong::Raised => 3,
        Wrong::NotErased => 4,
        Wrong::Mismatch => 5,
        Wrong::PollNever => 6,
        Wrong::NotIdleAtEnd => 7,
    }
}

/// The place of a cause, behind those of a step a byte that differs.
fn rank(why: Why) -> u64
    ensures { result ≡ rank why }
{
    match why {
        Why::Wrong(cause) => rank_of(cause),
        Why::Differs(address) => 8 + u64::from(address),
    }
}

/// Of two answers to one step the one told: the first cause, where some chips don't take it.
pub(crate) fn first_of(one: Result<(), Wrong>, other: Result<(), Wrong>) -> Result<(), Wrong>
    ensures { result ≡ first_of one other }
{
    match (one, other) {
        (Ok(()), answer) => answer,
        (Err(cause), Ok(())) => Err(cause),
        (Err(cause), Err(because)) => {
            if rank_of(because) < rank_of(cause) {
                Err(because)
            } else {
                Err(cause)
            }
        }
    }
}

/// Of the pages of two answers that of the one told.
pub(crate) fn told_of(one: Result<(), Wrong>, other: Result<(), Wrong>, page: u32, next: u32) -> u32
    ensures { result ≡ (if is_sooner other one then next else page) }
{
    if is_sooner(other, one) { next } else { page }
}

/// Whether an answer to a step is reported in place of the one before it.
fn is_sooner(next: Result<(), Wrong>, answer: Result<(), Wrong>) -> bool
    ensures { result ≡ is_sooner next answer }
{
    match (next, answer) {
        (Ok(()), _) => false,
        (Err(_), Ok(())) => true,
        (Err(because), Err(cause)) => rank_of(because) < rank_of(cause),
    }
}

/// Whether the first verdict tells of an earlier step than the second or, at the same one, of an
/// earlier cause.
fn is_before(first: Verdict, second: Verdict) -> bool
    ensures { result ≡ is_before first second }
{
    match (first, second) {
        (Verdict::Yes, _) => false,
        (Verdict::No { .. }, Verdict::Yes) => true,
        (
            Verdict::No { step, why },
            Verdict::No {
                step: other,
                why: because,
            },
        ) => { step < other || (step == other && rank(why) < rank(because)) }
    }
}

/// Of two verdicts the earlier; the first where neither is.
pub(crate) fn earlier(first: Verdict, second: Verdict) -> Verdict
    ensures { result ≡ earlier first second }
{
    if is_before(second, first) {
        second
    } else {
        first
    }
}

/// Of the pages of two verdicts that of the earlier.
pub(crate) fn page_of(first: Verdict, second: Verdict, page: u32, next: u32) -> u32
    ensures { result ≡ (if is_before second first then next else page) }
{
    if is_before(second, first) { next } else { page }
}
