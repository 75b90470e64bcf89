//! The chip behind a device, read piece by piece.

ghost use Rattle.std.specs.Prelude.{◌≡◌, ◌≤◌, ◌<◌, ◌+◌, ◌^◌, min, [], length, take, drop, IfOk};
ghost use Rattle.std.specs.Prelude.{MatchResult};
ghost use Rattle.nor_reader.specs.Compared.{CountsMismatch};
ghost use Rattle.nor_serprog.specs.declared.fault.Fault.TheVariants.{Read, Write};
ghost use Rattle.nor_serprog.specs.Exchange.{CountsReads, CountsWrites};
ghost use Rattle.nor_reader.specs.Again.{ReadsAgain};
ghost use Rattle.nor_reader.specs.Cut.{HasReadCut, HasReadWholeCut, ReadApart, shift};
ghost use Rattle.nor_loop.specs.Reads.{chunk};
ghost use Rattle.nor_reader.specs.Reads.{reads, HasReadOn, StopsOn};
ghost use Rattle.nor_reader.specs.Twice.{twice, HasReadWhole, ReadTwice, ReadsWhole, StopsFirst};
ghost use Rattle.nor_reader.specs.Twice.{StopsTwice};
ghost use Rattle.nor_base.specs.Wire.{wire};

use crate::by::{ReadBy, enter_of, leave_of};
use crate::difference::Mismatch;
use crate::piece::{compare_piece, read_piece};
use crate::shows::SHIFT;
use crate::switch::{ENTER, LEAVE, switch_mode};
use crate::told::{Pass, Told};
use nor_base::{ByteIn, ByteOut};
use nor_serprog::{Fault, Limits};

/// Has the device read its chip from address `low` on, as far as there is room, as many bytes at
/// once as it can give; then again, in pieces that begin two bytes further on, and compares. How
/// far it is goes to `progress`.
///
/// `Differs` names the lowest address whose byte came otherwise. `Exchange` where an exchange ended
/// early, after which nothing was sent.
pub fn read_content<R: ByteIn, W: ByteOut, P: ByteOut>(
    from: &mut R,
    to: &mut W,
    limits: &Limits,
    by: ReadBy,
    again: ReadBy,
    content: &mut [u8],
    low: usize,
    progress: &mut P,
) -> Result<(), Mismatch>
    requires low { (low ≤ length content.old) × (low < 2 ^ 32) }
    requires size { length content.old ≤ 2 ^ 32 }
    ensures twice { MatchResult result
        (λ _. ReadTwice (twice limits.now.asked by again) (wire (W.held to.old) (R.ahead from.old))
        (wire (W.held to.new) (R.ahead from.new)) (chunk low (drop low content.new)))
        (StopsTwice (twice limits.now.asked by again) (wire (W.held to.old) (R.ahead from.old))
        (wire (W.held to.new) (R.ahead from.new)) (chunk low (drop low content.new))) }
    ensures apart { IfOk result
        (λ _. ReadApart (twice limits.now.asked by again) (wire (W.held to.old) (R.ahead from.old))
        (wire (W.held to.new) (R.ahead from.new)) (chunk low (drop low content.new))) }
    ensures size { length content.new ≡ length content.old }
    ensures counts { CountsMismatch Read (R.count from.old) (R.count from.new) result
        × CountsMismatch Write (W.count to.old) (W.count to.new) result }
{
    if let Err(why) = read_first(from, to, limits, by, content, low, progress) {
        return Err(Mismatch::Exchange(why));
    }
    let at = low as u32;
    let came = &content[low..];
    read_again(from, to, limits, again, at, came, Pass::Second, progress)
}

/// Has the device read its chip from an address on, as far as there is room, in four-byte mode
/// where that is the way.
fn read_first<R: ByteIn, W: ByteOut, P: ByteOut>(
    from: &mut R,
    to: &mut W,
    limits: &Limits,
    by: ReadBy,
    bytes: &mut [u8],
    low: usize,
    progress: &mut P,
) -> Result<(), Fault>
    requires low { low ≤ length bytes.old }
    requires size { length bytes.old ≤ 2 ^ 32 }
    ensures read { MatchResult result
        (λ _. HasReadWhole (reads limits.now.asked by) (wire (W.held to.old) (R.ahead from.old))
        (wire (W.held to.new) (R.ahead from.new)) (chunk low (drop low bytes.new)))
        (StopsFirst (reads limits.now.asked by) (wire (W.held to.old) (R.ahead from.old))
        (wire (W.held to.new) (R.ahead from.new)) (chunk low (drop low bytes.new))) }
    ensures cut { IfOk result
        (λ _. HasReadWholeCut limits.now.asked (reads limits.now.asked by)
        (wire (W.held to.old) (R.ahead from.old)) (wire (W.held to.new) (R.ahead from.new))
        (chunk low (drop low bytes.new))) }
    ensures size { length bytes.new ≡ length bytes.old }
    ensures counts { CountsReads (R.count from.old) (R.count from.new) result
        × CountsWrites (W.count to.old) (W.count to.new) result }
{
    if let Err(why) = switch_mode(from, to, enter_of(by), ENTER) {
        return Err(why);
    }
    let mut told = Told::new(Pass::First, bytes.len() - low, progress);
    let read = read_on(from, to, limits, by, bytes, low, &mut told);
    told.end();
    if let Err(why) = read {
        return Err(why);
    }
    switch_mode(from, to, leave_of(by), LEAVE)
}

/// Has the device read its chip from an address on, and compares it with bytes, telling `progress`
/// how far it is. It takes no memory.
///
/// `Differs` names the lowest address whose byte is another; four-byte mode was left where it was
/// entered. `Exchange` where an exchange ended early, after which nothing was sent.
pub fn read_again<R: ByteIn, W: ByteOut, P: ByteOut>(
    from: &mut R,
    to: &mut W,
    limits: &Limits,
    by: ReadBy,
    at: u32,
    bytes: &[u8],
    pass: Pass,
    progress: &mut P,
) -> Result<(), Mismatch>
    requires end { at + length bytes.now ≤ 2 ^ 32 }
    ensures again { ReadsWhole (reads limits.now.asked by) (wire (W.held to.old) (R.ahead from.old))
        (wire (W.held to.new) (R.ahead from.new)) result (chunk at bytes.now) }
    ensures cut { IfOk result
        (λ _. HasReadWholeCut (min shift limits.now.asked) (reads limits.now.asked by)
        (wire (W.held to.old) (R.ahead from.old)) (wire (W.held to.new) (R.ahead from.new))
        (chunk at bytes.now)) }
    ensures counts { CountsMismatch Read (R.count from.old) (R.count from.new) result
        × CountsMismatch Write (W.count to.old) (W.count to.new) result }
{
    if let Err(why) = switch_mode(from, to, enter_of(by), ENTER) {
        return Err(Mismatch::Exchange(why));
    }
    let first = SHIFT.min(limits.asked as usize);
    let mut told = Told::new(pass, bytes.len(), progress);
    let read = compare_all(from, to, limits, by, at, bytes, first, &mut told);
    told.end();
    match read {
        Ok(()) => match switch_mode(from, to, leave_of(by), LEAVE) {
            Ok(()) => Ok(()),
            Err(why) => Err(Mismatch::Exchange(why)),
        },
        Err(Mismatch::Exchange(why)) => Err(Mismatch::Exchange(why)),
        Err(Mismatch::Differs(d)) => match switch_mode(from, to, leave_of(by), LEAVE) {
            Ok(()) => Err(Mismatch::Differs(d)),
            Err(why) => Err(Mismatch::Exchange(why)),
        },
    }
}

/// Has the device read its chip from an address on, as far as there is room. The bytes before that
/// address stay.
pub(crate) fn read_on<R: ByteIn, W: ByteOut, P: ByteOut>(
    from: &mut R,
    to: &mut W,
    limits: &Limits,
    by: ReadBy,
    bytes: &mut [u8],
    start: usize,
    told: &mut Told<'_, P>,
) -> Result<(), Fault>
    requires start { start ≤ length bytes.old }
    requires size { length bytes.old ≤ 2 ^ 32 }
    ensures read { MatchResult result
        (λ _. HasReadOn (reads limits.now.asked by) (wire (W.held to.old) (R.ahead from.old))
        (wire (W.held to.new) (R.ahead from.new)) (take start bytes.old) bytes.new)
        (StopsOn (reads limits.now.asked by) (wire (W.held to.old) (R.ahead from.old))
        (wire (W.held to.new) (R.ahead from.new)) (take start bytes.old)) }
    ensures cut { IfOk result
        (λ _. HasReadCut limits.now.asked (reads limits.now.asked by)
        (wire (W.held to.old) (R.ahead from.old)) (wire (W.held to.new) (R.ahead from.new))
        (chunk start (drop start bytes.new))) }
    ensures size { length bytes.new ≡ length bytes.old }
    ensures counts { CountsReads (R.count from.old) (R.count from.new) result
        × CountsWrites (W.count to.old) (W.count to.new) result }
{
    let size = bytes.len();
    let most = limits.asked as usize;
    let mut done = start;
    while done < size {
        let len = (size - done).min(most);
        if let Err(why) = read_piece(from, to, by, done as u32, &mut bytes[done..done + len]) {
            return Err(why);
        }
        done += len;
        told.came(done - start);
    }
    Ok(())
}

/// Has the device read its chip from an address on, so many bytes first, and compares what comes
/// with bytes.
pub(crate) fn compare_all<R: ByteIn, W: ByteOut, P: ByteOut>(
    from: &mut R,
    to: &mut W,
    limits: &Limits,
    by: ReadBy,
    at: u32,
    bytes: &[u8],
    first: usize,
    told: &mut Told<'_, P>,
) -> Result<(), Mismatch>
    requires some { 0 < first }
    requires few { first ≤ limits.now.asked }
    requires end { at + length bytes.now ≤ 2 ^ 32 }
    ensures again { ReadsAgain (reads limits.now.asked by) (wire (W.held to.old) (R.ahead from.old))
        (wire (W.held to.new) (R.ahead from.new)) result (chunk at bytes.now) }
    ensures cut { IfOk result
        (λ _. HasReadCut first (reads limits.now.asked by) (wire (W.held to.old) (R.ahead from.old))
        (wire (W.held to.new) (R.ahead from.new)) (chunk at bytes.now)) }
    ensures counts { CountsMismatch Read (R.count from.old) (R.count from.new) result
        × CountsMismatch Write (W.count to.old) (W.count to.new) result }
{
    let most = limits.asked as usize;
    let mut next = first;
    let mut done = 0;
    while done < bytes.len() {
        let len = (bytes.len() - done).min(next);
        let place = at + done as u32;
        if let Err(why) = compare_piece(from, to, by, place, &bytes[done..done + len]) {
            return Err(why);
        }
        done += len;
        told.came(done);
        next = most;
    }
    Ok(())
}
