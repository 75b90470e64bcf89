//! The reading of a script that plays its steps.

ghost use Rattle.std.specs.Prelude.{◌≡◌, ◌<◌, ◌-◌, ◌^◌, IfOk, IfErr};
ghost use Rattle.nor_play.specs.Fed.{ending, past};
ghost use Rattle.nor_play.specs.Numbered.{PlaysNumbered};
ghost use Rattle.nor_play.specs.Play.{CountsPlay};
ghost use Rattle.nor_script.specs.Stream.{CountsRead, HadText, StopsReader};
ghost use Rattle.nor_script.specs.View.{step_of};
ghost use Rattle.norprog_common.specs.Reading.{GivesSome};
ghost use Rattle.norprog_run.specs.Steps.{Steps, Ends, playing};
ghost use Rattle.norprog_run.specs.Play.{run_of};
ghost use Rattle.norprog_run.specs.Stream.{PlaysText};

use crate::verdict::Verdict;
use nor_base::ByteIn;
use nor_chip::Chip;
use nor_play::{PlayFault, StepPlayer};
use nor_script::{ReadFault, ScriptFault, StepReader, StepView};
use std::alloc::Global;

/// Plays the steps of a script on a chip, each as it comes, a poll at most `limit` times. The
/// script is read to its end also where the chip goes wrong.
///
/// Its first fault, as [`StepReader`] reports it; `Device` where the device failed; `Memory` where
/// a growth is refused.
pub(crate) fn play_text<A: ByteIn>(
    alloc: Global,
    script: &mut A,
    chip: &mut Chip<'_>,
    limit: u64,
) -> Result<Verdict, ReadFault>
    requires limit { 0 < limit }
    ensures played { IfOk result (λ verdict. HadText (A.ahead script.old) (A.ahead script.new)
        (PlaysText (run_of chip.old.setting chip.old.chip limit) verdict chip.new.chip)) }
    ensures refused { IfErr result (StopsReader (A.ahead script.old) (A.ahead script.new)) }
    ensures gave { GivesSome (A.ahead script.old) (A.ahead script.new) }
    ensures count { CountsRead (A.count script.old) (A.count script.new) result }
{
    let mut reader = StepReader::begin(alloc, script)?;
    let mut player = StepPlayer::new(limit);
    let mut wrong = None;
    while reader.advance(script)? {
        if wrong.is_none() {
            wrong = play_step(alloc, reader.view(), &mut player, chip)?;
        }
    }
    match wrong {
        Some(verdict) => Ok(verdict),
        None => Ok(verdict_of(&player, chip)),
    }
}

/// Plays a step: how the play ends, where the chip goes wrong. `Memory` where a growth is refused.
#[tactic(auto, using(nor_base::proofs::DeviceLaws::risen_some))]
fn play_step(
    alloc: Global,
    step: StepView<'_>,
    player: &mut StepPlayer,
    chip: &mut Chip<'_>,
) -> Result<Option<Verdict>, ReadFault>
    requires { player.old.number < 2 ^ 64 - 1 }
    ensures { Steps (playing player.old chip.old) (playing player.new chip.new)
        (step_of step.entry) result }
{
    match feed(alloc, step, player, chip) {
        Ok(_) => Ok(None),
        Err(PlayFault::Wrong { step, why }) => Ok(Some(Verdict::Wrong { step, why })),
        Err(PlayFault::PortFailed { .. }) => unreachable!("a chip in memory never fails"),
        Err(PlayFault::Memory) => Err(ReadFault::Script(ScriptFault::Memory)),
    }
}

/// Gives a player its next step.
fn feed(
    alloc: Global,
    step: StepView<'_>,
    player: &mut StepPlayer,
    chip: &mut Chip<'_>,
) -> Result<u64, PlayFault>
    requires { player.old.number < 2 ^ 64 - 1 }
    ensures player { player.new ≡ past player.old result }
    ensures played { PlaysNumbered chip.old chip.new player.old (step_of step.entry) result }
    ensures count { CountsPlay 0 0 result }
{
    match step {
        StepView::Send { clocks } => player.send(alloc, clocks, chip),
        StepView::Poll { clocks } => player.poll(clocks, chip),
        StepView::Verify { clocks, expect } => player.verify(alloc, clocks, expect, chip),
    }
}

/// How a play ends after its last step, where the chip never went wrong.
fn verdict_of(player: &StepPlayer, chip: &Chip<'_>) -> Verdict
    ensures { Ends (ending player.now chip.now) result }
{
    match player.end(chip) {
        Ok(transactions) => Verdict::Done { transactions },
        Err(PlayFault::Wrong { step, why }) => Verdict::Wrong { step, why },
        Err(PlayFault::PortFailed { .. } | PlayFault::Memory) => {
            unreachable!("an end asks for nothing")
        }
    }
}
