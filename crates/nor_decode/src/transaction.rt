//! The decoder.

ghost use Rattle.std.specs.Prelude.{◌≡◌, ◌+◌, ◌*◌, ◌<◌, ◌≤◌, IsTrue, length, option_map};
ghost use Rattle.nor_base.specs.Instructions.{form_of};
ghost use Rattle.nor_base.specs.Decoding.{has_opcode, transaction, by_row, is_form, is_data};
ghost use Rattle.nor_base.specs.Decoding.{are_groups};
ghost use Rattle.nor_base.specs.Decoding.{broken};
ghost use Rattle.nor_decode.specs.Seen.{transaction_of};

use crate::clocks::{
    are_bits_sampled, are_bits_sent, are_idle, are_nibbles_sampled, are_nibbles_sent, number,
};
use crate::seen::Seen;
use crate::table::{Row, row_of};
use nor_base::{Meaning, What};

/// The instruction that the clocks of a transaction are on a chip in an address mode: `None` where
/// they have no opcode that the chip knows, and `Broken` where what follows the opcode isn't
/// exactly its row's form.
///
/// Each clock is looked at a bounded number of times, and none is copied.
#[tactic(auto, unfolding(nor_base::specs::Decoding::transaction))]
pub fn decode<'a>(clocks: &'a [u8], meaning: &Meaning, mode4: bool) -> Option<Seen<'a>>
    ensures { option_map transaction_of result ≡ transaction meaning.now mode4 clocks.now }
{
    if !has_opcode(clocks) {
        return None;
    }
    let (opcode, rest) = clocks.split_at(8);
    match row_of(number(opcode) as u8, meaning, mode4) {
        Some(row) => Some(seen_by(&row, rest)),
        None => None,
    }
}

/// Whether the first eight clocks are bits.
#[tactic(auto, unfolding(nor_base::specs::Decoding::has_opcode))]
fn has_opcode(clocks: &[u8]) -> bool
    ensures starts { result ≡ has_opcode clocks.now }
    ensures long { IsTrue result → 8 ≤ length clocks.now }
{
    clocks.len() >= 8 && are_bits_sent(&clocks[..8])
}

/// What the clocks after its opcode make of a row.
#[tactic(auto, unfolding(nor_base::specs::Decoding::by_row))]
fn seen_by<'a>(row: &Row, rest: &'a [u8]) -> Seen<'a>
    ensures { transaction_of result ≡ by_row rest.now row.now }
{
    if !is_form(row, rest) {
        return broken();
    }
    let address_len = 8 * usize::from(row.width);
    Seen {
        what: row.what,
        address: number(&rest[..address_len]),
        body: &rest[address_len + usize::from(row.dummies)..],
    }
}

/// Whether the clocks after the opcode are just those of the row.
#[tactic(auto, unfolding(nor_base::specs::Decoding::is_form))]
fn is_form(row: &Row, rest: &[u8]) -> bool
    ensures value { result ≡ is_form row.now rest.now }
    ensures enough { IsTrue result → 8 * row.now.width + row.now.dummies ≤ length rest.now }
{
    let address_len = 8 * usize::from(row.width);
    let dummy_len = usize::from(row.dummies);
    if rest.len() < address_len + dummy_len {
        return false;
    }
    let (address, rest) = rest.split_at(address_len);
    let (dummies, body) = rest.split_at(dummy_len);
    are_bits_sent(address) && are_idle(dummies) && is_data(row.what, body)
}

/// A known opcode in another form than its row's.
fn broken<'a>() -> Seen<'a>
    ensures { transaction_of result ≡ broken }
{
    Seen {
        what: What::Broken,
        address: 0,
        body: &[],
    }
}

/// Whether clocks are the data of an instruction.
#[tactic(auto, unfolding(nor_base::specs::Decoding::is_data))]
fn is_data(what: What, clocks: &[u8]) -> bool
    ensures { result ≡ is_data (form_of what) clocks.now }
{
    match what {
        What::Program => are_groups(clocks, 8) && are_bits_sent(clocks),
        What::QuadProgram => are_groups(clocks, 2) && are_nibbles_sent(clocks),
        What::Status | What::Read => are_groups(clocks, 8) && are_bits_sampled(clocks),
        What::QuadRead => are_groups(clocks, 2) && are_nibbles_sampled(clocks),
        _ => clocks.is_empty(),
    }
}

/// Whether clocks are groups of `n`, at least one.
fn are_groups(clocks: &[u8], n: usize) -> bool
    requires { 0 < n }
    ensures { result ≡ are_groups n clocks.now }
{
    !clocks.is_empty() && clocks.len() % n == 0
}
