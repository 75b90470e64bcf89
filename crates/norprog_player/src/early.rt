//! What is known of a play before a device is asked.

ghost use Rattle.std.specs.Prelude.{◌≡◌, ◌-◌, ◌^◌, length, IfOk};
ghost use Rattle.nor_base.specs.Chip.{IsPossible};
ghost use Rattle.norprog_player.specs.Early.{chip_with, EndsEarly};

use crate::ending::Ending;
use crate::put::put_steps;
use crate::rehearsal::{Rehearsal, rehearse};
use nor_base::{Meaning, Start};
use nor_flasher::PackedSteps;
use nor_serprog::Limits;
use norprog_device::Failure;
use std::alloc::{AllocError, Global};

/// The most that a request has room for: no device can do more bytes in one operation.
const MOST: u32 = (1 << 24) - 1;

/// The limits of a device that can do the most.
fn widest() -> Limits
    ensures sent { result.sent ≡ 2 ^ 24 - 1 }
    ensures asked { result.asked ≡ 2 ^ 24 - 1 }
{
    Limits {
        sent: MOST,
        asked: MOST,
        ahead: 0,
        pins: false,
    }
}

/// Steps that may be played: they do on every chip what they do in memory, and each is an operation
/// of some device.
#[derive(Drop)]
pub struct Rehearsed {
    /// The steps as a device does them.
    pub steps: PackedSteps,
    /// What the chip holds after them, from address 0 on.
    pub left: Vec<u8>,
}

/// What is known of a play before a device is asked.
#[derive(Drop)]
pub enum Early {
    /// It ends so whatever the device is.
    Ends(Ending),
    /// The steps may be played.
    Goes(Rehearsed),
}

/// How steps end whatever the device is: `Wrong` where a ready chip in memory that is never busy
/// goes wrong; else `No` where they don't do the same on every chip; else `Failed` for `Carried`
/// with the first that no device can do; else `Goes`.
///
/// Memory is taken as by [`rehearse`]. Where a [`Step::Send`] samples something, it takes more.
pub fn ends_early(
    alloc: Global,
    meaning: &Meaning,
    start: Start,
    content: &[u8],
    steps: PackedSteps,
) -> Result<Early, AllocError>
    requires size { length content.now ≡ meaning.now.size }
    requires mode { IsPossible meaning.now start }
    ensures { IfOk result (EndsEarly (chip_with meaning.now start content.now) steps) }
{
    let left = match rehearse(alloc, meaning, start, content, &steps)? {
        Rehearsal::Well { left } => left,
        Rehearsal::Wrong { step, why } => return Ok(Early::Ends(Ending::Wrong { step, why })),
        Rehearsal::No { step, why } => return Ok(Early::Ends(Ending::No { step, why })),
    };
    if let Some(step) = steps.first_not_carried(alloc, &widest())? {
        let why = Failure::Carried;
        return Ok(Early::Ends(Ending::Failed { step, why }));
    }
    let steps = put_steps(alloc, meaning, start, content, steps)?;
    Ok(Early::Goes(Rehearsed { steps, left }))
}
