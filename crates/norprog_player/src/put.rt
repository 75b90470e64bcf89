//! Steps that go well in memory, as a device does them.

ghost use Rattle.std.specs.Prelude.{◌≡◌, false, List, ℕ, Ok, All, IfOk, length};
ghost use Rattle.nor_script.specs.View.{step_of};
ghost use Rattle.nor_base.specs.Chip.{IsPossible};
ghost use Rattle.nor_base.specs.Port.{Transacts};
ghost use Rattle.nor_base.specs.Sample.{sampled_count};
ghost use Rattle.nor_base.specs.Step.{step_clocks};
ghost use Rattle.nor_base.specs.declared.step.Step.TheVariants.{Send};
ghost use Rattle.nor_serprog.specs.Done.{IsDoable};
ghost use Rattle.norprog_player.specs.Early.{GoesWellInMemory, chip_with};
ghost use Rattle.norprog_player.specs.Put.{AreAnswered, ArePut, Goes, IsTaken, put_as};

use nor_base::{Meaning, PortFault, Start, Step, sampled};
use nor_chip::{Chip, Port};
use nor_decode::POLL;
use nor_flasher::PackedSteps;
use nor_script::StepView;
use std::alloc::{AllocError, Global};

/// The steps as a device does them, where they go well on a ready chip in memory that is never busy
/// and holds these bytes. What a [`Step::Send`] samples has to be what that chip gives; a status
/// read is waited for.
///
/// Where some do, memory is taken for one more such content and for the clocks of all steps.
pub(crate) fn put_steps(
    alloc: Global,
    meaning: &Meaning,
    start: Start,
    content: &[u8],
    steps: PackedSteps,
) -> Result<PackedSteps, AllocError>
    requires size { length content.now ≡ meaning.now.size }
    requires mode { IsPossible meaning.now start }
    requires well { GoesWellInMemory (chip_with meaning.now start content.now) steps }
    ensures { IfOk result (ArePut (chip_with meaning.now start content.now) steps) }
{
    if steps.are_doable(alloc)? {
        return Ok(steps);
    }
    let array = Vec::from_slice(alloc, content)?;
    let mut chip = Chip::new(meaning, start, array, Vec::new(alloc), false);
    let all = steps.unpack().rest(alloc)?;
    let put = answered(alloc, &mut chip, all.as_slice())?;
    Ok(put)
}

/// Has the chip in memory do steps that go well on it, and keeps each with what it gave.
fn answered(alloc: Global, chip: &mut Chip<'_>, steps: &[Step]) -> Result<PackedSteps, AllocError>
    requires goes { Goes chip.old steps.now }
    ensures put { IfOk result (λ put. AreAnswered chip.old steps.now put chip.new) }
    ensures form { IfOk result (All IsDoable) }
{
    let mut put = PackedSteps::new(alloc);
    for step in steps {
        let given = answered_step(alloc, chip, step)?;
        put.push(put_as(step, given.as_slice()))?;
    }
    Ok(put)
}

/// Has the chip in memory do a step that it takes: what it gave.
#[tactic(auto, using(nor_base::proofs::DeviceLaws::risen_some))]
fn answered_step(alloc: Global, chip: &mut Chip<'_>, step: &Step) -> Result<Vec<u8>, AllocError>
    requires taken { IsTaken chip.old (step_clocks step.now) }
    ensures { IfOk result (λ given. (length given.items ≡ sampled_count (step_clocks step.now))
        × Transacts chip.old chip.new (Ok tt) (step_clocks step.now) given.items) }
{
    let clocks = step.clocks();
    let mut given = vec![in alloc; 0u8; sampled(clocks)]?;
    match chip.transact(clocks, given.as_mut_slice()) {
        Ok(()) => Ok(given),
        Err(PortFault::Wrong(_) | PortFault::Failed) => {
            unreachable!("the chip in memory takes the step")
        }
    }
}

/// A step that is to give these bytes.
fn put_as<'a>(step: &'a Step, given: &'a [u8]) -> StepView<'a>
    ensures { step_of result ≡ put_as step.entry.now given.entry.now }
{
    let clocks = step.clocks();
    match step {
        Step::Poll { .. } => StepView::Poll { clocks },
        Step::Verify { expect, .. } => StepView::Verify {
            clocks,
            expect: expect.as_slice(),
        },
        Step::Send { .. } => sent_as(clocks, given),
    }
}

/// The step of a [`Step::Send`] of these clocks that is to give these bytes.
fn sent_as<'a>(clocks: &'a [u8], given: &'a [u8]) -> StepView<'a>
    ensures { step_of result ≡ put_as (Send clocks.entry.now) given.entry.now }
{
    if given.is_empty() {
        StepView::Send { clocks }
    } else if clocks == POLL.as_slice() {
        StepView::Poll { clocks }
    } else {
        StepView::Verify {
            clocks,
            expect: given,
        }
    }
}
