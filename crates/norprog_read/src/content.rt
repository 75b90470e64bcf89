//! The content of the chip behind a device.

ghost use Rattle.std.specs.Prelude.{◌≡◌, ◌↔◌, ◌≤◌, ◌<◌, ◌^◌, true, false};
ghost use Rattle.std.specs.Prelude.{length, IfOk, IfErr, MatchResult};
ghost use Rattle.std.specs.Bool.{OnFalse, OnTrue};
ghost use Rattle.nor_base.specs.Chip.{begins4};
ghost use Rattle.nor_reader.specs.declared.by.ReadBy.TheVariants.{Entered};
ghost use Rattle.nor_base.specs.Wire.{wire};
ghost use Rattle.norprog_read.specs.Content.{HoldsPart};
ghost use Rattle.norprog_read.specs.Span.{came, span};
ghost use Rattle.nor_reader.specs.Cut.{ReadApart};
ghost use Rattle.nor_reader.specs.Twice.{twice, ReadTwice, StopsTwice};
ghost use Rattle.norprog_read.specs.Stops.{StopsContent};
ghost use Rattle.norprog_read.specs.Way.{first_by, is_near, is_readable, is_small, may_enter};
ghost use Rattle.norprog_read.specs.Way.{past_by, second_by, way, IsShownBy};

use crate::asked::Span;
use crate::fault::{Unlike, Unread};
use crate::mode::{has_both, is_there};
use nor_base::{ByteIn, ByteOut, Meaning, Start};
use nor_reader::{Mismatch, ReadBy, mode_is_shown, read_content, shows_mode, twice_knows};
use nor_serprog::Limits;
use std::alloc::Global;

/// What three address bytes reach.
const REACH: u32 = 1 << 24;

/// Has the device read a part of its chip twice. Where the mode isn't sure that has to be all of
/// it, and to show the mode. Memory is taken for a byte of each address.
///
/// `Unlike` where the chip can't be read whole, a byte came otherwise, or the content doesn't show
/// that the chip is in the mode that was said; `Refused` for `Memory`.
pub(crate) fn read_part<R: ByteIn, W: ByteOut, P: ByteOut>(
    alloc: Global,
    from: &mut R,
    to: &mut W,
    limits: &Limits,
    meaning: &Meaning,
    start: Start,
    sure: bool,
    part: Span,
    progress: &mut P,
) -> Result<Vec<u8>, Unread>
    requires part { (part.low ≤ part.high) × (part.high ≤ meaning.now.size) }
    ensures whole { IfOk result (λ content.
        HoldsPart (way limits.now.asked meaning.now start sure part)
        (wire (W.held to.old) (R.ahead from.old)) (wire (W.held to.new) (R.ahead from.new))
        content.items) }
    ensures stops { IfErr result (StopsContent (way limits.now.asked meaning.now start sure part)
        (wire (W.held to.old) (R.ahead from.old)) (wire (W.held to.new) (R.ahead from.new))) }
{
    if !is_readable(meaning, start) {
        return Err(Unread::Unlike(Unlike::Unreadable));
    }
    let by = first_by(meaning, start);
    let again = second_by(meaning, start, sure);
    let mut content = vec![in alloc; 0xFF; size_in(meaning)]?;
    twice_knows();
    mode_is_shown();
    let bytes = content.as_mut_slice();
    match read_within(from, to, limits, by, again, bytes, part, progress) {
        Ok(()) => {
            if is_certain(limits, by, sure, part, content.as_slice()) {
                Ok(content)
            } else {
                Err(Unread::Unlike(Unlike::Hidden))
            }
        }
        Err(Mismatch::Exchange(why)) => Err(Unread::Unlike(Unlike::Asking(why))),
        Err(Mismatch::Differs(d)) => Err(Unread::Unlike(Unlike::At(d.address))),
    }
}

/// Has the device read a part of a content twice.
fn read_within<R: ByteIn, W: ByteOut, P: ByteOut>(
    from: &mut R,
    to: &mut W,
    limits: &Limits,
    by: ReadBy,
    again: ReadBy,
    content: &mut [u8],
    part: Span,
    progress: &mut P,
) -> Result<(), Mismatch>
    requires part { (part.low ≤ part.high) × (part.high ≤ length content.old) }
    requires size { (length content.old ≤ 2 ^ 32) × (part.low < 2 ^ 32) }
    ensures twice { MatchResult result
        (λ _. ReadTwice (twice limits.now.asked by again) (wire (W.held to.old) (R.ahead from.old))
        (wire (W.held to.new) (R.ahead from.new)) (came part content.new))
        (StopsTwice (twice limits.now.asked by again) (wire (W.held to.old) (R.ahead from.old))
        (wire (W.held to.new) (R.ahead from.new)) (came part content.new)) }
    ensures apart { IfOk result
        (λ _. ReadApart (twice limits.now.asked by again) (wire (W.held to.old) (R.ahead from.old))
        (wire (W.held to.new) (R.ahead from.new)) (came part content.new)) }
    ensures size { length content.new ≡ length content.old }
{
    let bytes = &mut content[..part.high];
    read_content(from, to, limits, by, again, bytes, part.low, progress)
}

/// Whether the mode is sure, or all of a content was read twice so, and shows it.
fn is_certain(limits: &Limits, by: ReadBy, sure: bool, part: Span, content: &[u8]) -> bool
    requires size { length content.now ≤ 2 ^ 32 }
    ensures shown { OnTrue result (sure ≡ false → (part ≡ span 0 (length content.now))
        × IsShownBy by limits.now.asked content.now) }
    ensures hidden { OnFalse result ((sure ≡ false) × ((part ≡ span 0 (length content.now))
        × IsShownBy by limits.now.asked content.now → ⊥)) }
{
    sure || (is_all(part, content.len()) && is_shown(limits, by, content))
}

/// Whether a part is all of so many bytes.
fn is_all(part: Span, size: usize) -> bool
    ensures { (result ≡ true) ↔ (part ≡ span 0 size) }
{
    part.low == 0 && part.high == size
}

/// Whether a content that was read twice so shows the address mode.
fn is_shown(limits: &Limits, by: ReadBy, content: &[u8]) -> bool
    requires size { length content.now ≤ 2 ^ 32 }
    ensures { (result ≡ true) ↔ IsShownBy by limits.now.asked content.now }
{
    match by {
        ReadBy::Content { mode4 } => shows_mode(limits, mode4, content),
        ReadBy::Tables | ReadBy::FourBytes | ReadBy::Entered { .. } => false,
    }
}

/// How many bytes a chip has.
fn size_in(meaning: &Meaning) -> usize
    ensures is { result ≡ meaning.now.size }
    ensures few { result < 2 ^ 32 }
{
    meaning.size as usize
}

/// Whether a chip can be read whole.
fn is_readable(meaning: &Meaning, start: Start) -> bool
    ensures { result ≡ is_readable meaning.now start }
{
    is_near(meaning, start) || may_enter(meaning, start)
}

/// Whether a chip can be read whole in the mode that it begins in.
fn is_near(meaning: &Meaning, start: Start) -> bool
    ensures { result ≡ is_near meaning.now start }
{
    is_small(meaning) || meaning.begins4(&start) || meaning.read4
}

/// Whether three address bytes reach all of a chip.
fn is_small(meaning: &Meaning) -> bool
    ensures { result ≡ is_small meaning.now }
{
    meaning.size <= REACH
}

/// Whether a chip begins in three-byte mode, and has a way to enter and leave the other.
fn may_enter(meaning: &Meaning, start: Start) -> bool
    ensures { result ≡ may_enter meaning.now start }
{
    !meaning.begins4(&start) && is_there(meaning.enter) && is_there(meaning.leave)
}

/// How a chip that begins so is read the first time, and read back: by the address bytes of its
/// mode, or in four-byte mode, which is entered and left.
pub fn first_by(meaning: &Meaning, start: Start) -> ReadBy
    ensures { result ≡ first_by meaning.now start }
{
    if is_near(meaning, start) {
        ReadBy::Content {
            mode4: meaning.begins4(&start),
        }
    } else {
        entered(meaning)
    }
}

/// How it is read the second time.
fn second_by(meaning: &Meaning, start: Start, sure: bool) -> ReadBy
    ensures { result ≡ second_by meaning.now start sure }
{
    if !sure || (is_small(meaning) && !has_both(meaning.width)) {
        first_by(meaning, start)
    } else if meaning.read4 {
        ReadBy::FourBytes
    } else if may_enter(meaning, start) {
        entered(meaning)
    } else {
        first_by(meaning, start)
    }
}

/// How it is read past its end.
pub(crate) fn past_by(meaning: &Meaning, start: Start) -> ReadBy
    ensures { result ≡ past_by meaning.now start }
{
    if meaning.read4 {
        ReadBy::FourBytes
    } else {
        first_by(meaning, start)
    }
}

/// In four-byte mode, which is entered and left.
fn entered(meaning: &Meaning) -> ReadBy
    ensures { result ≡ Entered meaning.now.enter meaning.now.leave }
{
    ReadBy::Entered {
        enter: meaning.enter,
        leave: meaning.leave,
    }
}
