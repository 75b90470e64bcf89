//! The step of a line, which owns its clocks.

ghost use Rattle.std.specs.Prelude.{◌≡◌, true, IfOk, IfErr};
ghost use Rattle.nor_script.specs.Line.{are_pairs, step_fault, SpellsStep};
ghost use Rattle.nor_script.specs.Parts.{TellsFault, SpellsBytes};
ghost use Rattle.nor_script.specs.declared.fault.ScriptFault.TheVariants.{Memory};

use crate::fault::ScriptFault;
use crate::hexadecimal::decode;
use crate::line::{Kind, parts_on};
use nor_base::{Bytes, Step};
use std::alloc::Global;

/// The step on a line that is no end line, or why it has none.
pub(crate) fn step_on(alloc: Global, number: u64, line: &[u8]) -> Result<Step, ScriptFault>
    ensures read { IfOk result (SpellsStep line.now) }
    ensures refused { IfErr result (TellsFault (step_fault number line.now)) }
{
    let parts = parts_on(number, line)?;
    let clocks = copied(alloc, parts.clocks)?;
    let expect = bytes_in(alloc, parts.digits)?;
    Ok(match parts.kind {
        Kind::Send => Step::Send { clocks },
        Kind::Poll => Step::Poll { clocks },
        Kind::Verify => Step::Verify { clocks, expect },
    })
}

/// The bytes that pairs of digits spell; `Memory` where a growth is refused.
fn bytes_in(alloc: Global, digits: &[u8]) -> Result<Bytes, ScriptFault>
    requires { are_pairs digits.now ≡ true }
    ensures read { IfOk result (SpellsBytes digits.now) }
    ensures refused { IfErr result (λ fault. fault ≡ Memory) }
{
    let mut bytes = Vec::new(alloc);
    decode(digits, &mut bytes)?;
    Ok(Bytes::new(bytes))
}

/// A copy of some bytes; `Memory` where a growth is refused.
fn copied(alloc: Global, bytes: &[u8]) -> Result<Bytes, ScriptFault>
    ensures read { IfOk result (λ copy. copy ≡ bytes.now) }
    ensures refused { IfErr result (λ fault. fault ≡ Memory) }
{
    let copy = Vec::from_slice(alloc, bytes)?;
    Ok(Bytes::new(copy))
}
