//! The instructions of operations, all at once or in parts.

ghost use Rattle.std.specs.Prelude.{◌≡◌, false, map, IfOk, IfErr};
ghost use Rattle.nor_base.specs.declared.instruction.What.TheVariants.{Enter};
ghost use Rattle.nor_base.specs.Operations.{entering, leaving, lowered, switching_by};
ghost use Rattle.nor_select.specs.Streamed.{next, last, onward, PartsJoin};
ghost use Rattle.nor_select.specs.View.{op_of, AreCoded, Adds};

use crate::fault::SelectFault;
use crate::instr::Instr;
use crate::op::Op;
use crate::select::{DISABLE, ENABLE, append_ops};
use nor_base::{Meaning, Start, Strategy, Switch};
use std::alloc::{AllocError, Allocator, Global};
use std::marker::Model;

/// The opcode that enters four-byte address mode.
const ENTER: u8 = 0xB7;

/// The opcode that leaves it.
const LEAVE: u8 = 0xE9;

/// The instructions that do the operations, in their order, and nothing else. In strategy S4, where
/// there is an operation, they begin with those that enter four-byte mode and end with those that
/// leave it.
///
/// `Memory` where a growth is refused.
pub fn lower<'a>(
    alloc: Global,
    ops: &[Op<'a>],
    meaning: &Meaning,
    start: &Start,
    strategy: Strategy,
) -> Result<Vec<Instr<'a>>, SelectFault>
    ensures { IfOk result
        (λ instrs. AreCoded instrs.items
        (lowered meaning.now start.now strategy (map op_of ops.now))) }
{
    let mut instrs = Vec::new(alloc);
    if ops.is_empty() {
        return Ok(instrs);
    }
    append_entering(&mut instrs, meaning, strategy)?;
    append_ops(&mut instrs, ops, meaning, start, strategy)?;
    append_leaving(&mut instrs, meaning, strategy)?;
    Ok(instrs)
}

/// Gives the instructions of operations that come in parts. What its calls give, one after the
/// other, is what [`lower`] gives for all the operations.
#[derive(Drop)]
pub struct Lowerer<'m> {
    meaning: &'m Meaning,
    start: Start,
    strategy: Strategy,
    started: bool,
}

impl<'m> Model for Lowerer<'m> {
    ghost use Rattle.nor_select.specs.Streamed.{Streaming};

    ghost Value = { Streaming };

    ghost view = { λ l. record
        { meaning = l.meaning.now; start = l.start; by = l.strategy; started = l.started } };
}

impl<'m> Lowerer<'m> {
    /// One that has seen no operation. It takes no memory.
    pub fn new(meaning: &'m Meaning, start: &Start, strategy: Strategy) -> Lowerer<'m>
        ensures { result ≡ record
            { meaning = meaning.now; start = start.now; by = strategy; started = false } }
    {
        Lowerer {
            meaning,
            start: *start,
            strategy,
            started: false,
        }
    }

    /// The chip that it gives instructions for.
    pub fn meaning(&self) -> &'m Meaning
        ensures { result.now ≡ self.now.meaning }
    {
        self.meaning
    }

    /// How it drives the chip.
    pub fn strategy(&self) -> Strategy
        ensures { result ≡ self.now.by }
    {
        self.strategy
    }

    /// The instructions of the next operations; before the first operation of all those that enter
    /// the mode that the strategy needs.
    ///
    /// `Memory` where a growth is refused; it is as before then.
    pub fn more<'a>(&mut self, alloc: Global, ops: &[Op<'a>]) -> Result<Vec<Instr<'a>>, SelectFault>
        ensures instrs { IfOk result (λ instrs.
            AreCoded instrs.items (next self.old (map op_of ops.now))) }
        ensures started { IfOk result (λ _. self.new ≡ onward self.old (map op_of ops.now)) }
        ensures stays { IfErr result (λ _. self.new ≡ self.old) }
    {
        let mut instrs = Vec::new(alloc);
        if ops.is_empty() {
            return Ok(instrs);
        }
        if !self.started {
            append_entering(&mut instrs, self.meaning, self.strategy)?;
        }
        append_ops(&mut instrs, ops, self.meaning, &self.start, self.strategy)?;
        self.started = true;
        Ok(instrs)
    }

    /// The instructions that leave the mode, where it was entered.
    ///
    /// `Memory` where a growth is refused.
    pub fn close(self, alloc: Global) -> Result<Vec<Instr<'static>>, SelectFault>
        ensures { IfOk result (λ instrs. AreCoded instrs.items (last self.entry)) }
    {
        let mut instrs = Vec::new(alloc);
        if self.started {
            append_leaving(&mut instrs, self.meaning, self.strategy)?;
        }
        Ok(instrs)
    }
}

/// What a [`Lowerer`] gives for the parts of some operations, one after the other, is what
/// [`lower`] gives for all of them. It does nothing: its contract is the law.
pub fn parts_join()
    ensures { PartsJoin }
{}

/// Appends what enters the mode that the strategy needs.
fn append_entering<'a, A: Allocator>(
    instrs: &mut Vec<Instr<'a>, A>,
    meaning: &Meaning,
    strategy: Strategy,
) -> Result<(), AllocError>
    ensures { IfOk result
        (λ _. Adds instrs.old.items (entering meaning.now strategy) instrs.new.items) }
{
    match strategy {
        Strategy::S4 => append_switch(instrs, meaning.enter, ENTER),
        _ => Ok(()),
    }
}

/// Appends what leaves it.
fn append_leaving<'a, A: Allocator>(
    instrs: &mut Vec<Instr<'a>, A>,
    meaning: &Meaning,
    strategy: Strategy,
) -> Result<(), AllocError>
    ensures { IfOk result
        (λ _. Adds instrs.old.items (leaving meaning.now strategy) instrs.new.items) }
{
    match strategy {
        Strategy::S4 => append_switch(instrs, meaning.leave, LEAVE),
        _ => Ok(()),
    }
}

/// Appends a change of the address mode, between write enable and write disable where the chip asks
/// for it.
fn append_switch<'a, A: Allocator>(
    instrs: &mut Vec<Instr<'a>, A>,
    switch: Switch,
    op: u8,
) -> Result<(), AllocError>
    ensures { IfOk result
        (λ _. Adds instrs.old.items (switching_by switch Enter op) instrs.new.items) }
{
    match switch {
        Switch::Absent => {}
        Switch::Plain => instrs.push(Instr::bare(op))?,
        Switch::Latched => {
            instrs.push(Instr::bare(ENABLE))?;
            instrs.push(Instr::bare(op))?;
            instrs.push(Instr::bare(DISABLE))?;
        }
    }
    Ok(())
}
