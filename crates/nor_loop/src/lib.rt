//! Laws of logs. A log has each operation that went over the wire of a device that speaks serprog,
//! and the bytes that came back. A chip explains it where it does each operation and gives these
//! bytes. What is promised speaks of every chip that explains a log.
//!
//! The functions do nothing: their contracts are the laws, and the gate proves them. `nor_flasher`
//! has what follows for a command that reads and programs a chip.
#![tactic(auto)]

pub mod worked;

ghost use Rattle.nor_loop.specs.Four.{FourReadsRead, BothRead};
ghost use Rattle.nor_loop.specs.Single.{SingleIsOperation, PlannedIsSingle, QuadUnseen};
ghost use Rattle.nor_loop.specs.Single.{WhateverQuad, WhateverQuadPart};
ghost use Rattle.nor_loop.specs.Laws.{LoopCloses, LoopResumes, LoopMends};
ghost use Rattle.nor_loop.specs.Laws.{LoopBreaks, LoopIsExplained, DoneIsLogged, HaltIsLogged};
ghost use Rattle.nor_loop.specs.Laws.{DeviceCloses, DeviceBreaks, OneLog, LogsJoin};
ghost use Rattle.nor_loop.specs.Laws.{ReadsRead, EnteredReadsRead};
ghost use Rattle.nor_loop.specs.Laws.{ToldLoopCloses};

use nor_laws::{spelling, verifying_reads};
use nor_plan_laws::planned_work;

/// Reads of a chunk, bytes from an address on, report it: every chip that explains them held just
/// these bytes there, and is as it was. Each chip that has the chunk explains them. This is so too
/// where four-byte mode is entered for the reads and left after them.
pub fn reads()
    ensures reading { ReadsRead }
    ensures entered_reading { EnteredReadsRead }
{
    spelling();
}

/// Reads of a chunk by 13h, which has four address bytes in either mode, report it too, where the
/// chip has that opcode, and each chip that has the chunk explains them. Two readings of a chunk,
/// one after the other, are one reading of it.
pub fn four_reads()
    ensures four { FourReadsRead }
    ensures both { BothRead }
{
    spelling();
}

/// A log reads a chunk twice, and then does the task for each content that has it. Every chip that
/// explains it ends settled, with the goal of what it held at first. Where the whole chip is read
/// the goal may be that of an older dump; such work may be broken off and done by a later log.
pub fn loop_closes()
    ensures closes { LoopCloses }
    ensures resumes { LoopResumes }
    ensures mends { LoopMends }
    ensures told { ToldLoopCloses }
{
    reads();
}

/// A log reads a chunk twice, and work that is planned for each content that has it was broken off.
/// Every chip that explains the log held the chunk, and at most one unit of the work is in the
/// making, also where it did the operation that came next, or some of its row.
pub fn loop_breaks()
    ensures { LoopBreaks }
{
    planned_work();
    verifying_reads();
}

/// A log reads a chunk twice and then does work that is planned for each content that has it. For
/// each of these contents some chip that held it explains the log. So what is promised of every
/// such chip isn't empty.
pub fn loop_is_explained()
    ensures { LoopIsExplained }
{
    planned_work();
}

/// What a device did for steps is a log of these steps, or of those before it halted, and just that
/// log went over its wire. Where it read a chunk twice and did planned work, the loop is closed;
/// where it halted in that, it is broken off.
pub fn device()
    ensures logged { DoneIsLogged }
    ensures halted { HaltIsLogged }
    ensures closes { DeviceCloses }
    ensures breaks { DeviceBreaks }
{
    planned_work();
    loop_closes();
    loop_breaks();
    loop_is_explained();
}

/// An instruction on one lane without dummy clocks is one operation of a device; without the quad
/// setting planned work has no other instruction.
pub fn single()
    ensures operation { SingleIsOperation }
    ensures planned { PlannedIsSingle }
{}

/// A log doesn't show the chip's quad setting, so what is promised for one setting is promised for
/// the other. This holds of work that was done, and of work that was broken off.
pub fn quad()
    ensures unseen { QuadUnseen }
    ensures whatever { WhateverQuad }
    ensures part { WhateverQuadPart }
{}

/// Where writer and reader report their bytes, a wire has just one log, so nobody can choose one
/// that suits. Logs of two stretches, one after the other, are one log.
pub fn wire()
    ensures one { OneLog }
    ensures joined { LogsJoin }
{}
