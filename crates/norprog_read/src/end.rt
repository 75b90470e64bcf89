//! Whether the chip behind a device is as large as its content.

ghost use Rattle.std.specs.Prelude.{◌≡◌, ◌↔◌, ◌≤◌, ◌==◌, ◌^◌, min, not, true, false};
ghost use Rattle.std.specs.Prelude.{is_some, length, position, IfOk, IfErr, MatchOption};
ghost use Rattle.nor_base.specs.Wire.{wire};
ghost use Rattle.nor_loop.specs.Reads.{chunk};
ghost use Rattle.norprog_read.specs.End.{has_some, past, IsAway, IsTwice, Repeats, SeesEnd};
ghost use Rattle.norprog_read.specs.End.{StopsEnd};
ghost use Rattle.norprog_read.specs.Span.{part_in};

use crate::asked::{Ask, Span};
use crate::fault::{Unlike, Unread};
use nor_base::{ByteIn, ByteOut, Nowhere};
use nor_reader::{Mismatch, Pass, ReadBy, read_again, read_past};
use nor_serprog::Limits;

/// As many bytes a read half a chip away takes at most: mostly the first few tell.
const FEW: u32 = 256;

/// Of a chip that is read whole: sees that the halves of its content aren't alike, unless they may
/// be; then that it gives past its end what one of just this content gives there, unless it may be
/// larger. Of one that is read in part: as [`see_elsewhere`].
pub(crate) fn see_end<R: ByteIn, W: ByteOut>(
    from: &mut R,
    to: &mut W,
    limits: &Limits,
    ask: &Ask<'_>,
    by: ReadBy,
    content: &[u8],
    part: Span,
) -> Result<(), Unread>
    requires part { (part.low ≤ part.high) × (part.high ≤ length content.now) }
    requires size { length content.now ≤ 2 ^ 32 }
    ensures end { IfOk result (λ _. SeesEnd (wire (W.held to.old) (R.ahead from.old))
        (wire (W.held to.new) (R.ahead from.new)) (past limits.now.asked by content.now) ask.now
        part) }
    ensures stops { IfErr result (StopsEnd (wire (W.held to.old) (R.ahead from.old))
        (wire (W.held to.new) (R.ahead from.new)) (past limits.now.asked by content.now) ask.now
        part) }
{
    if ask.near.is_some() {
        return see_elsewhere(from, to, limits, ask, by, content, part);
    }
    if !ask.repeats && repeats(content) {
        return Err(Unread::Unlike(Unlike::Repeats));
    }
    if ask.any_size {
        return Ok(());
    }
    match read_past(from, to, limits, by, content) {
        Ok(()) => Ok(()),
        Err(Mismatch::Exchange(why)) => Err(Unread::Unlike(Unlike::Asking(why))),
        Err(Mismatch::Differs(d)) => Err(Unread::Unlike(Unlike::At(d.address))),
    }
}

/// Sees that half a chip away from the bytes of a part some byte is another, unless the halves may
/// be alike, or the part is blank. A chip of half the size has them there too.
fn see_elsewhere<R: ByteIn, W: ByteOut>(
    from: &mut R,
    to: &mut W,
    limits: &Limits,
    ask: &Ask<'_>,
    by: ReadBy,
    content: &[u8],
    part: Span,
) -> Result<(), Unread>
    requires near { is_some ask.now.near ≡ true }
    requires part { (part.low ≤ part.high) × (part.high ≤ length content.now) }
    requires size { length content.now ≤ 2 ^ 32 }
    ensures end { IfOk result (λ _. SeesEnd (wire (W.held to.old) (R.ahead from.old))
        (wire (W.held to.new) (R.ahead from.new)) (past limits.now.asked by content.now) ask.now
        part) }
    ensures stops { IfErr result (StopsEnd (wire (W.held to.old) (R.ahead from.old))
        (wire (W.held to.new) (R.ahead from.new)) (past limits.now.asked by content.now) ask.now
        part) }
{
    if ask.repeats {
        return Ok(());
    }
    let few = few_of(limits);
    match away_from(content, part) {
        None => Ok(()),
        Some((at, bytes)) => {
            match read_again(from, to, &few, by, at, bytes, Pass::Second, &mut Nowhere) {
                Ok(()) => Err(Unread::Unlike(Unlike::Repeats)),
                Err(Mismatch::Exchange(why)) => Err(Unread::Unlike(Unlike::Asking(why))),
                Err(Mismatch::Differs(_)) => Ok(()),
            }
        }
    }
}

/// A device's limits, of which a read takes few bytes.
fn few_of(limits: &Limits) -> Limits
    ensures asked { result.asked ≡ min limits.now.asked 256 }
{
    Limits {
        sent: limits.sent,
        asked: limits.asked.min(FEW),
        ahead: limits.ahead,
        pins: limits.pins,
    }
}

/// The bytes of a part from the first on that isn't FFh, those of one half, and the address half a
/// chip away; None where the part is blank.
fn away_from<'a>(content: &'a [u8], part: Span) -> Option<(u32, &'a [u8])>
    requires part { (part.low ≤ part.high) × (part.high ≤ length content.now) }
    requires size { length content.now ≤ 2 ^ 32 }
    ensures { MatchOption result (has_some (part_in part content.now) ≡ false)
        (λ away. IsAway content.now part (chunk away.0 away.1.now)) }
{
    let half = content.len() / 2;
    match first_some(&content[part.low..part.high]) {
        None => None,
        Some(place) => {
            let first = part.low + place;
            if first < half {
                let end = part.high.min(half);
                Some(((first + half) as u32, &content[first..end]))
            } else {
                Some(((first - half) as u32, &content[first..part.high]))
            }
        }
    }
}

/// The first place of a byte that isn't FFh.
fn first_some(bytes: &[u8]) -> Option<usize>
    ensures { result ≡ position (λ byte. not (byte == 0xFF)) bytes.now }
{
    bytes.iter().position(|byte| *byte != 0xFF)
}

/// Whether a content isn't blank, and its halves are alike.
fn repeats(content: &[u8]) -> bool
    ensures { (result ≡ true) ↔ Repeats content.now }
{
    has_some(content) && is_twice(content)
}

/// Whether some byte isn't FFh.
fn has_some(content: &[u8]) -> bool
    ensures { result ≡ has_some content.now }
{
    content.iter().any(|byte| *byte != 0xFF)
}

/// Whether the second half is the first.
fn is_twice(content: &[u8]) -> bool
    ensures { (result ≡ true) ↔ IsTwice content.now }
{
    let half = content.len() / 2;
    content[..half] == content[half..]
}
