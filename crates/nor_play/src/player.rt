//! The player.

ghost use Rattle.std.specs.Prelude.{◌≡◌, ◌<◌, ◌≤◌, ◌-◌, ◌^◌, Ok, Err, IfOk, MatchResult};
ghost use Rattle.nor_base.specs.declared.step.Step.TheVariants.{Send, Poll, Verify};
ghost use Rattle.nor_chip.specs.Asked.{AsksMore};
ghost use Rattle.nor_play.specs.Halt.{play_fault};
ghost use Rattle.nor_play.specs.Play.{Plays, CountsPlay};
ghost use Rattle.nor_play.specs.Numbered.{PlaysNumbered};
ghost use Rattle.nor_play.specs.Asks.{AsksPlay, AsksNumbered};
ghost use Rattle.nor_play.specs.Fed.{begun, past, ending};

use crate::fault::{Halt, PlayFault};
use crate::step::{poll, send, verify};
use nor_base::{Step, Wrong};
use nor_chip::Port;
use std::alloc::Global;
use std::marker::Model;

/// Plays steps on a port, and returns how many transactions there were. A poll is tried at most
/// `limit` times. Steps count from 0; a fault at the end has the number of steps.
///
/// `Wrong` is how the chip goes wrong, and at which step; `PortFailed` the step whose transaction
/// failed; `Memory` where a growth is refused.
pub fn play<P: Port>(
    alloc: Global,
    steps: &[Step],
    port: &mut P,
    limit: u64,
) -> Result<u128, PlayFault>
    requires limit { 0 < limit }
    ensures played { Plays (P.shown port.old) (P.shown port.new) limit steps.now result }
    ensures count { CountsPlay (P.count port.old) (P.count port.new) result }
    ensures asked { AsksPlay (P.shown port.old)
        (AsksMore (P.asked port.old) (P.asked port.new)) limit steps.now result }
{
    let mut player = StepPlayer::new(limit);
    for step in steps {
        player.step(alloc, step, port)?;
    }
    player.end(port)
}

/// Plays steps that come one after another, as [`play`] plays a list of them: no list is held.
///
/// [`StepPlayer::send`], [`StepPlayer::poll`] or [`StepPlayer::verify`] for each step, and
/// [`StepPlayer::end`] after the last. The first fault is that of the play, whatever steps follow;
/// these aren't to be played. A port that is used for nothing else meanwhile is left, and was
/// asked, as by a play of the list of the steps fed (the laws of `proofs/FedLaws.antt`).
#[derive(Drop)]
pub struct StepPlayer {
    limit: u64,
    number: u64,
    done: u128,
}

impl Model for StepPlayer {
    ghost use Rattle.nor_play.specs.Fed.{Player};

    ghost Value = { Player };

    ghost use Rattle.std.specs.Prelude.{◌<◌, ◌≤◌, ◌*◌, ◌^◌};

    ghost view = { λ p. record { limit = p.limit; number = p.number; done = p.done } };

    ghost invariant = { λ p. (0 < p.limit) × (p.limit < 2 ^ 64) × (p.done ≤ p.number * p.limit) };
}

impl StepPlayer {
    /// A player before the first step, that tries a poll at most `limit` times, which is 1 or more.
    pub fn new(limit: u64) -> StepPlayer
        requires { 0 < limit }
        ensures { result ≡ begun limit }
    {
        StepPlayer {
            limit,
            number: 0,
            done: 0,
        }
    }

    /// Plays a step that sends these clocks, and returns how many transactions it took: 1. The
    /// bytes that the clocks sample are dropped; where they sample none, no memory is taken.
    ///
    /// Fewer than 2^64 - 1 steps were played before. The faults are those of [`play`], with the
    /// number of the step. After one the player is as it was.
    pub fn send<P: Port>(
        &mut self,
        alloc: Global,
        clocks: &[u8],
        port: &mut P,
    ) -> Result<u64, PlayFault>
        requires number { self.old.number < 2 ^ 64 - 1 }
        ensures player { self.new ≡ past self.old result }
        ensures played { PlaysNumbered (P.shown port.old) (P.shown port.new) self.old
            (Send clocks.now) result }
        ensures count { CountsPlay (P.count port.old) (P.count port.new) result }
        ensures asked { AsksNumbered (P.shown port.old)
            (AsksMore (P.asked port.old) (P.asked port.new)) self.old.limit
            (Send clocks.now) result }
    {
        let answer = send(alloc, clocks, port, self.limit);
        self.count(answer)
    }

    /// Plays a step that polls with these clocks until the chip says idle, and returns how many
    /// transactions it took. No memory is taken.
    ///
    /// Fewer than 2^64 - 1 steps were played before. The faults are those of [`play`], with the
    /// number of the step. After one the player is as it was.
    pub fn poll<P: Port>(&mut self, clocks: &[u8], port: &mut P) -> Result<u64, PlayFault>
        requires number { self.old.number < 2 ^ 64 - 1 }
        ensures player { self.new ≡ past self.old result }
        ensures played { PlaysNumbered (P.shown port.old) (P.shown port.new) self.old
            (Poll clocks.now) result }
        ensures count { CountsPlay (P.count port.old) (P.count port.new) result }
        ensures asked { AsksNumbered (P.shown port.old)
            (AsksMore (P.asked port.old) (P.asked port.new)) self.old.limit
            (Poll clocks.now) result }
    {
        let answer = poll(clocks, port, self.limit);
        self.count(answer)
    }

    /// Plays a step that sends these clocks and compares the bytes that they sample, and returns
    /// how many transactions it took: 1.
    ///
    /// Fewer than 2^64 - 1 steps were played before. The faults are those of [`play`], with the
    /// number of the step. After one the player is as it was.
    pub fn verify<P: Port>(
        &mut self,
        alloc: Global,
        clocks: &[u8],
        expect: &[u8],
        port: &mut P,
    ) -> Result<u64, PlayFault>
        requires number { self.old.number < 2 ^ 64 - 1 }
        ensures player { self.new ≡ past self.old result }
        ensures played { PlaysNumbered (P.shown port.old) (P.shown port.new) self.old
            (Verify clocks.now expect.now) result }
        ensures count { CountsPlay (P.count port.old) (P.count port.new) result }
        ensures asked { AsksNumbered (P.shown port.old)
            (AsksMore (P.asked port.old) (P.asked port.new)) self.old.limit
            (Verify clocks.now expect.now) result }
    {
        let answer = verify(alloc, clocks, expect, port, self.limit);
        self.count(answer)
    }

    /// Ends the play, and returns how many transactions there were.
    ///
    /// `Wrong` of `NotIdleAtEnd`, with the number of steps, where the chip isn't settled. The port
    /// is asked for no transaction.
    pub fn end<P: Port>(&self, port: &P) -> Result<u128, PlayFault>
        ensures { result ≡ ending self.now (P.shown port.now) }
    {
        if !port.settled() {
            let why = Wrong::NotIdleAtEnd;
            return Err(PlayFault::Wrong {
                step: self.number,
                why,
            });
        }
        Ok(self.done)
    }

    /// Plays a step.
    fn step<P: Port>(&mut self, alloc: Global, step: &Step, port: &mut P) -> Result<u64, PlayFault>
        requires number { self.old.number < 2 ^ 64 - 1 }
        ensures player { self.new ≡ past self.old result }
        ensures played { PlaysNumbered (P.shown port.old) (P.shown port.new) self.old
            step.now result }
        ensures count { CountsPlay (P.count port.old) (P.count port.new) result }
        ensures asked { AsksNumbered (P.shown port.old)
            (AsksMore (P.asked port.old) (P.asked port.new)) self.old.limit
            step.now result }
    {
        match step {
            Step::Send { clocks } => self.send(alloc, clocks.as_slice(), port),
            Step::Poll { clocks } => self.poll(clocks.as_slice(), port),
            Step::Verify { clocks, expect } => {
                self.verify(alloc, clocks.as_slice(), expect.as_slice(), port)
            }
        }
    }

    /// What a step answered, its halt told with the step's number; a step that was played is
    /// counted.
    fn count(&mut self, answer: Result<u64, Halt>) -> Result<u64, PlayFault>
        requires number { self.old.number < 2 ^ 64 - 1 }
        requires few { IfOk answer (λ turns. turns ≤ self.old.limit) }
        ensures told { MatchResult answer (λ turns. result ≡ Ok turns)
            (λ halt. result ≡ Err (play_fault halt self.old.number)) }
        ensures player { self.new ≡ past self.old result }
    {
        match answer {
            Ok(turns) => {
                self.number += 1;
                self.done += u128::from(turns);
                Ok(turns)
            }
            Err(halt) => Err(halt.at(self.number)),
        }
    }
}
