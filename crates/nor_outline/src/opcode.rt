//! The opcode that erases a block.

ghost use Rattle.std.specs.Prelude.{◌≡◌};
ghost use Rattle.nor_base.specs.Operations.{erasing};

use nor_base::{Meaning, Strategy};
use nor_geometry::{Block, takes_dedicated};

/// The opcode that erases a block: its kind's own, or the one with four address bytes where the
/// strategy takes that.
pub(crate) fn erase_opcode(meaning: &Meaning, strategy: Strategy, block: Block) -> u8
    ensures { result ≡ (erasing meaning.now strategy block).op }
{
    let (op, op4) = match meaning.erase_kind(block.kind) {
        Some(erase) => (erase.op, erase.op4.unwrap_or(0)),
        None => (0, 0),
    };
    if takes_dedicated(strategy, block.start) {
        op4
    } else {
        op
    }
}
