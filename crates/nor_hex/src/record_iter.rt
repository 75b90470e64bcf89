//! The records of a text in their order.

ghost use Rattle.std.specs.Prelude.{◌≡◌, ◌↔◌, ℕ, List};
ghost use Rattle.std.specs.Iterator.{YieldsFirst, item_count};
ghost use Rattle.nor_hex.specs.Record.{Record, IsRecord, record_of};
ghost use Rattle.nor_hex.specs.Records.{records_of};

use crate::fault::HexFault;
use crate::record::{HexLine, MOST_BYTES, record_in};
use nor_lines::{FilledLines, filled};
use std::marker::Model;

/// An iterator over the records of a text. Clauses see it as the list of what it has left.
#[derive(Drop)]
pub struct RecordIter<'a> {
    lines: FilledLines<'a>,
    ended: bool,
}

impl<'a> Model for RecordIter<'a> {
    ghost use Rattle.std.specs.Prelude.{List, Result};
    ghost use Rattle.nor_hex.specs.declared.fault.HexFault.{HexFault};
    ghost use Rattle.nor_hex.specs.Record.{Record};
    ghost use Rattle.nor_hex.specs.Records.{records_left};

    ghost Value = { List (Result Record HexFault) };

    ghost view = { λ s. records_left s.ended s.lines };
}

/// The records of the lines that are not blank, in their order, each with its line's number. They
/// end after the first line that is no record, with its fault: `NoColon`, `BadDigit`, `BadLength`,
/// `BadSum` or `BadType`.
pub fn records(text: &[u8]) -> RecordIter<'_>
    ensures records { result ≡ records_of text.now }
    // What makes a line a record, in the format's words.
    ensures record { (n : ℕ) (line : List ℕ) (this : Record)
        → (record_of n line ≡ Ok this) ↔ IsRecord n line this }
{
    RecordIter {
        lines: filled(text),
        ended: false,
    }
}

impl<'a> Iterator for RecordIter<'a> {
    type Item = Result<HexLine<'a>, HexFault>;

    ghost next_gives = { YieldsFirst (λ rest. rest) };

    ghost remaining = { item_count (λ rest. rest) };

    fn next(&mut self) -> Option<Result<HexLine<'a>, HexFault>> {
        if self.ended {
            return None;
        }
        let (number, line) = self.lines.next()?;
        let item = record_in(line, number, &mut [0; MOST_BYTES]);
        self.ended = item.is_err();
        Some(item)
    }
}
