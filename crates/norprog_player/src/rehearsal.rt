//! A script in memory alone.

ghost use Rattle.std.specs.Prelude.{◌≡◌, ◌+◌, ◌<◌, ◌^◌, [], false, length, IfOk, IfSome};
ghost use Rattle.nor_base.specs.Chip.{IsPossible, chip_of, ready};
ghost use Rattle.nor_base.specs.Run.{DoesTaskOnEvery};
ghost use Rattle.norprog_player.specs.Rehearsal.{IsFed, Rehearses};

use nor_base::{Meaning, Start, Step, Wrong};
use nor_check::{CheckFault, StepChecker, Verdict, Why, check};
use nor_chip::Chip;
use nor_flasher::PackedSteps;
use nor_play::{PlayFault, play};
use std::alloc::{AllocError, Global};

/// How a script goes in memory.
#[derive(Drop)]
pub enum Rehearsal {
    /// Each chip ends settled, with the same bytes.
    Well {
        /// What the chip holds at the end, from address 0 on.
        left: Vec<u8>,
    },
    /// The chip in memory goes wrong.
    Wrong {
        /// The step, counted from 0; the number of steps where it goes wrong at the end.
        step: u64,
        /// How it goes wrong.
        why: Wrong,
    },
    /// Nothing goes wrong on the chip in memory, but on some chip it does, or that one ends with
    /// other bytes.
    No {
        /// The step, counted from 0; the number of steps where it goes wrong at the end.
        step: u64,
        /// How it goes wrong there, on some chip.
        why: Why,
    },
}

/// Checks that steps do the same on every chip that holds these bytes. Where they don't, it first
/// plays them on a ready chip in memory that is never busy.
///
/// Memory is taken for one more such content; for more where a step tells pages apart. Where they
/// don't do the same, it is for three more, and for the clocks of all steps.
pub fn rehearse(
    alloc: Global,
    meaning: &Meaning,
    start: Start,
    content: &[u8],
    steps: &PackedSteps,
) -> Result<Rehearsal, AllocError>
    requires size { length content.now ≡ meaning.now.size }
    requires mode { IsPossible meaning.now start }
    ensures { IfOk result (Rehearses (chip_of meaning.now start [] false)
        (ready (chip_of meaning.now start [] false) content.now) steps.now) }
{
    match left_on_every(alloc, meaning, start, content, steps)? {
        Some(left) => Ok(Rehearsal::Well { left }),
        None => {
            let all = steps.unpack().rest(alloc)?;
            rehearse_whole(alloc, meaning, start, content, all.as_slice())
        }
    }
}

/// What steps leave on every chip, where they do the same on each.
fn left_on_every(
    alloc: Global,
    meaning: &Meaning,
    start: Start,
    content: &[u8],
    steps: &PackedSteps,
) -> Result<Option<Vec<u8>>, AllocError>
    requires size { length content.now ≡ meaning.now.size }
    requires mode { IsPossible meaning.now start }
    ensures { IfOk result (λ left. IfSome left (λ left.
        DoesTaskOnEvery meaning.now start content.now left.items steps.now)) }
{
    let array = Vec::from_slice(alloc, content)?;
    let mut checker = StepChecker::new(alloc, meaning, start, array);
    let all = steps.len() as u64;
    let mut ahead = steps.unpack();
    while checker.number() < all {
        let window = ahead.next_window(alloc)?;
        feed(alloc, &mut checker, window.as_slice())?;
    }
    Ok(checker.left())
}

/// Feeds a checker with steps.
fn feed(alloc: Global, checker: &mut StepChecker<'_>, steps: &[Step]) -> Result<(), AllocError>
    requires few { checker.old.number + length steps.now < 2 ^ 64 }
    ensures fed { IfOk result (λ _. IsFed checker.old steps.now checker.new) }
{
    for step in steps {
        match checker.step(alloc, step) {
            Ok(()) => {}
            Err(CheckFault::Memory) => return Err(AllocError),
        }
    }
    Ok(())
}

/// Plays steps on a ready chip in memory that is never busy. Where that goes well it checks that
/// they do the same on every chip ([`nor_check::check`]).
#[tactic(auto, using(nor_base::proofs::DeviceLaws::risen_some))]
fn rehearse_whole(
    alloc: Global,
    meaning: &Meaning,
    start: Start,
    content: &[u8],
    steps: &[Step],
) -> Result<Rehearsal, AllocError>
    requires size { length content.now ≡ meaning.now.size }
    requires mode { IsPossible meaning.now start }
    ensures { IfOk result (Rehearses (chip_of meaning.now start [] false)
        (ready (chip_of meaning.now start [] false) content.now) steps.now) }
{
    let array = Vec::from_slice(alloc, content)?;
    let mut chip = Chip::new(meaning, start, array, Vec::new(alloc), false);
    match play(alloc, steps, &mut chip, 1) {
        Ok(_) => {}
        Err(PlayFault::Wrong { step, why }) => return Ok(Rehearsal::Wrong { step, why }),
        Err(PlayFault::PortFailed { .. }) => unreachable!("a chip in memory never fails"),
        Err(PlayFault::Memory) => return Err(AllocError),
    }
    match check(alloc, steps, meaning, &start, content, chip.content()) {
        Ok(Verdict::Yes) => {
            let left = Vec::from_slice(alloc, chip.content())?;
            Ok(Rehearsal::Well { left })
        }
        Ok(Verdict::No { step, why }) => Ok(Rehearsal::No { step, why }),
        Err(CheckFault::Memory) => Err(AllocError),
    }
}
