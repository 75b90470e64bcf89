//! The instruction that does an operation.

ghost use Rattle.std.specs.Prelude.{◌≡◌, map, flat_map, IfOk};
ghost use Rattle.nor_base.specs.Operations.{poll, erasing, programming, reading, instructions};
ghost use Rattle.nor_select.specs.Coded.{plain, coded};
ghost use Rattle.nor_select.specs.View.{op_of, coded_of, Adds, coded_at};

use crate::instr::{Body, Instr};
use crate::op::Op;
use nor_base::{Meaning, Start, Strategy};
use nor_geometry::{Block, legacy_width, takes_dedicated};
use std::alloc::{AllocError, Allocator};

/// The write enable.
pub(crate) const ENABLE: u8 = 0x06;

/// The write disable.
pub(crate) const DISABLE: u8 = 0x04;

/// Appends the instructions that do operations.
///
/// `AllocError` where a growth of memory is refused.
pub(crate) fn append_ops<'a, A: Allocator>(
    instrs: &mut Vec<Instr<'a>, A>,
    ops: &[Op<'a>],
    meaning: &Meaning,
    start: &Start,
    strategy: Strategy,
) -> Result<(), AllocError>
    ensures { IfOk result
        (λ _. Adds instrs.old.items
        (flat_map (instructions meaning.now start.now strategy) (map op_of ops.now))
        instrs.new.items) }
{
    for op in ops {
        let change = match *op {
            Op::Erase(block) => erasing(meaning, strategy, block),
            Op::Program { at, bytes } => programming(meaning, start, strategy, at, bytes),
            Op::Read { at, bytes } => {
                instrs.push(reading(meaning, start, strategy, at, bytes))?;
                continue;
            }
        };
        // a change of the array comes after the write enable, and is waited for
        instrs.extend_from_slice(&[Instr::bare(ENABLE), change, poll()])?;
    }
    Ok(())
}

/// A poll until the chip is idle.
fn poll<'a>() -> Instr<'a>
    ensures { coded_of result ≡ coded poll }
{
    Instr {
        op: 0x05,
        address: 0,
        width: 0,
        dummies: 0,
        body: Body::Poll,
    }
}

/// An erase of a block, by its kind's legacy opcode or its dedicated one.
fn erasing<'a>(meaning: &Meaning, strategy: Strategy, block: Block) -> Instr<'a>
    ensures { coded_of result ≡ coded (erasing meaning.now strategy block) }
{
    let (op, op4) = match meaning.erase_kind(block.kind) {
        Some(erase) => (erase.op, erase.op4.unwrap_or(0)),
        None => (0, 0),
    };
    at_address(strategy, op, op4, 0, block.start)
}

/// A program of bytes, on four lanes where chip, setting and strategy allow it.
fn programming<'a>(
    meaning: &Meaning,
    start: &Start,
    strategy: Strategy,
    at: u32,
    bytes: &'a [u8],
) -> Instr<'a>
    ensures { coded_of result
        ≡ coded (programming meaning.now start.now strategy
        (record { at = at; bytes = bytes.now })) }
{
    if start.quad && meaning.quad4 {
        return Instr {
            body: Body::Write4(bytes),
            ..with_four(0x34, 0, at)
        };
    }
    if start.quad && meaning.quad3 && !takes_dedicated(strategy, at) {
        return Instr {
            body: Body::Write4(bytes),
            ..at_address(strategy, 0x32, 0x34, 0, at)
        };
    }
    Instr {
        body: Body::Write1(bytes),
        ..at_address(strategy, 0x02, 0x12, 0, at)
    }
}

/// A read of as many bytes, on four lanes where chip, setting and strategy allow it.
fn reading<'a>(
    meaning: &Meaning,
    start: &Start,
    strategy: Strategy,
    at: u32,
    bytes: &'a [u8],
) -> Instr<'a>
    ensures { coded_of result
        ≡ coded (reading meaning.now start.now strategy (record { at = at; bytes = bytes.now })) }
{
    if let (true, Some(quad)) = (start.quad, meaning.quad_read) {
        if meaning.quad_read4 {
            return Instr {
                body: Body::Read4(bytes),
                ..with_four(0x6C, quad.dummies, at)
            };
        }
        if !takes_dedicated(strategy, at) {
            return Instr {
                body: Body::Read4(bytes),
                ..at_address(strategy, quad.op, 0x6C, quad.dummies, at)
            };
        }
    }
    Instr {
        body: Body::Read1(bytes),
        ..at_address(strategy, 0x03, 0x13, 0, at)
    }
}

/// An instruction with four address bytes in each mode, without data.
fn with_four<'a>(op: u8, dummies: u8, address: u32) -> Instr<'a>
    ensures { coded_of result
        ≡ record { op = op; address = address; width = 4; dummies = dummies; load = plain } }
{
    Instr {
        op,
        address,
        width: 4,
        dummies,
        body: Body::Plain,
    }
}

/// An instruction at an address, by its dedicated opcode or by its legacy one, without data.
fn at_address<'a>(strategy: Strategy, op: u8, op4: u8, dummies: u8, address: u32) -> Instr<'a>
    ensures { coded_of result ≡ coded_at strategy op op4 dummies address }
{
    if takes_dedicated(strategy, address) {
        return with_four(op4, dummies, address);
    }
    Instr {
        op,
        address,
        width: legacy_width(strategy),
        dummies,
        body: Body::Plain,
    }
}
