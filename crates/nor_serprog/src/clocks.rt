//! Which clocks a device can do.

ghost use Rattle.std.specs.Prelude.{◌≡◌, ◌↔◌, ◌++◌, ℕ, List, IsTrue, IfSome, IfNone, length};
ghost use Rattle.std.specs.List.{list_all, position, position_or_len};
ghost use Rattle.nor_base.specs.Decoding.{bytes_of_bits};
ghost use Rattle.nor_serprog.specs.Carried.{IsOperation, IsNoOperation, is_bit, is_sample};
ghost use Rattle.nor_serprog.specs.Carried.{are_bytes_sent, are_bytes_sampled, fits};

use crate::limits::Limits;

/// Whether the clocks are one operation of a device with these limits: whole bytes sent on one
/// lane, at least one, and then whole bytes sampled from one lane (`([01]{8})+(\.{8})*`), no more
/// of either than it can.
pub fn is_carried(clocks: &[u8], limits: &Limits) -> bool
    ensures carried { IsTrue result
        ↔ ((sent : List ℕ) × (asked : ℕ) × IsOperation limits.now clocks.now sent asked) }
{
    bits_sent(clocks, limits).is_some()
}

/// The clocks that send, where the clocks are one operation.
pub(crate) fn bits_sent<'a>(clocks: &'a [u8], limits: &Limits) -> Option<&'a [u8]>
    ensures carried { IfSome result (λ bits. (asked : ℕ)
        × IsOperation limits.now clocks.now (bytes_of_bits bits.now) asked) }
    ensures other { IfNone result (IsNoOperation limits.now clocks.now) }
{
    let (bits, samples) = split(clocks);
    if fits(limits, bits, samples) {
        Some(bits)
    } else {
        None
    }
}

/// The clocks before the first that samples, and the others.
fn split(clocks: &[u8]) -> (&[u8], &[u8])
    ensures first { length result.0.now ≡ position_or_len is_sample clocks.now }
    ensures parts { clocks.now ≡ result.0.now ++ result.1.now }
{
    clocks.split_at(first_sample(clocks).unwrap_or(clocks.len()))
}

/// The place of the first clock that samples.
fn first_sample(clocks: &[u8]) -> Option<usize>
    ensures { result ≡ position is_sample clocks.now }
{
    clocks.iter().position(|symbol| is_sample(*symbol))
}

/// Whether clocks send whole bytes on one lane and others sample whole bytes, no more of either
/// than the device can.
fn fits(limits: &Limits, sent: &[u8], sampled: &[u8]) -> bool
    ensures { result ≡ fits limits.now sent.now sampled.now }
{
    are_bytes_sent(sent)
        && are_bytes_sampled(sampled)
        && sent.len() / 8 <= limits.sent as usize
        && sampled.len() / 8 <= limits.asked as usize
}

/// Whether clocks send whole bytes on one lane, at least one.
fn are_bytes_sent(clocks: &[u8]) -> bool
    ensures { result ≡ are_bytes_sent clocks.now }
{
    !clocks.is_empty() && clocks.len() % 8 == 0 && are_bits(clocks)
}

/// Whether clocks sample whole bytes from one lane.
fn are_bytes_sampled(clocks: &[u8]) -> bool
    ensures { result ≡ are_bytes_sampled clocks.now }
{
    clocks.len() % 8 == 0 && are_samples(clocks)
}

/// Whether each clock sends a bit.
fn are_bits(clocks: &[u8]) -> bool
    ensures { result ≡ list_all is_bit clocks.now }
{
    clocks.iter().all(|symbol| is_bit(*symbol))
}

/// Whether each clock samples a bit.
fn are_samples(clocks: &[u8]) -> bool
    ensures { result ≡ list_all is_sample clocks.now }
{
    clocks.iter().all(|symbol| is_sample(*symbol))
}

/// Whether a clock sends a bit.
fn is_bit(symbol: u8) -> bool
    ensures { result ≡ is_bit symbol }
{
    symbol == b'0' || symbol == b'1'
}

/// Whether a clock samples a bit.
fn is_sample(symbol: u8) -> bool
    ensures { result ≡ is_sample symbol }
{
    symbol == b'.'
}
