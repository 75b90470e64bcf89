//! Reads a text into its image.

ghost use Rattle.std.specs.Prelude.{◌≡◌, ◌≢◌, ◌≤◌, List, length, OnOk, IfOk, IfErr};
ghost use Rattle.std.specs.Ordering.{nat_cmp};
ghost use Rattle.std.specs.BTreeMap.{get};
ghost use Rattle.nor_hex.specs.declared.fault.HexFault.TheVariants.{Conflict, Memory};
ghost use Rattle.nor_hex.specs.Record.{Record};
ghost use Rattle.nor_hex.specs.Faults.{IsAccepted, IsImage, IsFault};
ghost use Rattle.nor_hex.specs.Pieces.{Gives, IsPieces};
ghost use Rattle.nor_hex.specs.Steps.{AddsRecord, Clashes, base_past};

use crate::base::{Base, address, base_in, room};
use crate::fault::HexFault;
use crate::image::Image;
use crate::pieces::{Pieces, add_run};
use crate::record::{HexLine, MOST_BYTES, record_in};
use crate::segments::joined;
use nor_lines::{filled, line_count};
use std::alloc::{Allocator, Global};
use std::collections::BTreeMap;

/// The image of a text.
///
/// The fault is the first line's that has one, and within the line the first in the order of
/// [`HexFault`]; where no line has one but there is no end record, it is `NoEnd`. `Memory` comes
/// only where a growth was refused.
pub fn read(alloc: Global, text: &[u8]) -> Result<Image, HexFault>
    ensures image { IfOk result (λ image. IsImage text.now image) }
    ensures fault { IfErr result (λ fault. fault ≢ Memory → IsFault text.now fault) }
    ensures accepted { (records : List Record) → IsAccepted text.now records
        → IfErr result (λ fault. fault ≡ Memory) }
{
    let mut pieces = Pieces {
        by_last: BTreeMap::new(alloc),
        bytes: Vec::new(alloc),
    };
    let mut base = Base::Linear(0);
    let mut ended = false;
    let mut decoded = [0u8; MOST_BYTES];
    for (number, line) in filled(text) {
        if ended {
            return Err(HexFault::AfterEnd { line: number });
        }
        let record = record_in(line, number, &mut decoded)?;
        base = add_record(&mut pieces, base, &record, &decoded[4..4 + record.len()])?;
        ended = record.kind == 1;
    }
    if !ended {
        return Err(HexFault::NoEnd {
            line: line_count(text) + 1,
        });
    }
    Ok(Image {
        segments: joined(alloc, pieces)?,
    })
}

/// Adds what a record with these data bytes says, and returns the base after it: of a data record a
/// run up to where the addresses wrap, and one from there on. A byte for an address that has
/// another byte is `Conflict`.
fn add_record<A: Allocator + Clone>(
    pieces: &mut Pieces<A>,
    base: Base,
    line: &HexLine<'_>,
    bytes: &[u8],
) -> Result<Base, HexFault>
    requires bytes { (bytes.now ≡ line.now.bytes)
        × (length bytes.now ≤ 255)
        × IsPieces (get nat_cmp pieces.old.by_last) pieces.old.bytes.items }
    ensures base { IfOk result (λ next. next ≡ base_past base line.now) }
    ensures pieces { OnOk result
        (IsPieces (get nat_cmp pieces.new.by_last) pieces.new.bytes.items) }
    ensures bytes { OnOk result
        (AddsRecord base line.now (Gives (get nat_cmp pieces.old.by_last) pieces.old.bytes.items)
        (Gives (get nat_cmp pieces.new.by_last) pieces.new.bytes.items)) }
    ensures line { IfErr result (λ fault. fault ≢ Memory → fault ≡ Conflict line.now.line) }
    ensures clash { IfErr result (λ fault. fault ≢ Memory
        → Clashes base line.now (Gives (get nat_cmp pieces.old.by_last) pieces.old.bytes.items)) }
{
    match line.kind {
        0 => {
            let (front, rest) = bytes.split_at(bytes.len().min(room(base, line.offset)));
            add_run(pieces, address(base, line.offset, 0), front, line.line)?;
            let past = address(base, line.offset, front.len());
            add_run(pieces, past, rest, line.line)?;
            Ok(base)
        }
        2 | 4 => Ok(base_in(line)),
        _ => Ok(base),
    }
}
