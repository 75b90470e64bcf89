//! Laws of a written text. Each is the contract of a function.

ghost use Rattle.std.specs.Prelude.{◌≡◌, ◌≤◌, ◌+◌, ◌^◌, ℕ, List, true, length, IfOk, IfErr};
ghost use Rattle.nor_base.specs.Array.{are_bytes};
ghost use Rattle.nor_hex.specs.declared.fault.HexFault.TheVariants.{Memory};
ghost use Rattle.nor_hex.specs.WrittenSegments.{hex_text};
ghost use Rattle.nor_hex.specs.Laws.{GivesJust, PartsJoin, NoneHaveNone, WrittenGives};

use crate::fault::HexFault;
use crate::image::Image;
use crate::reader::read;
use crate::record_iter::records;
use std::alloc::Global;

/// The records of bytes are those of their parts, where each part except the first begins a
/// segment.
pub fn parts_join()
    ensures join { PartsJoin }
    ensures none { NoneHaveNone }
{}

/// Reads a text. What was written for bytes is no fault, and gives just these bytes at their
/// addresses; `Memory` comes only where a growth is refused.
pub fn read_back(alloc: Global, text: &[u8]) -> Result<Image, HexFault>
    ensures just { (at : ℕ) (bytes : List ℕ) → are_bytes bytes ≡ true → at + length bytes ≤ 2 ^ 32
        → text.now ≡ hex_text at bytes
        → IfOk result (GivesJust at bytes) }
    ensures read { (at : ℕ) (bytes : List ℕ) → are_bytes bytes ≡ true → at + length bytes ≤ 2 ^ 32
        → text.now ≡ hex_text at bytes
        → IfErr result (λ fault. fault ≡ Memory) }
{
    let _records = records(text);
    read(alloc, text)
}

/// The image of a written text gives just its bytes, at their addresses.
pub fn written_images()
    ensures { WrittenGives }
{
    let _records = records(&[]);
}
