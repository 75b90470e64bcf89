//! What the chip behind a device holds, compared with a content.

ghost use Rattle.std.specs.Prelude.{◌≡◌, ◌<◌, ◌≤◌, ◌*◌, ◌^◌, false, Err, length, MatchResult};
ghost use Rattle.nor_cells.specs.Marks.{IsMarked};
ghost use Rattle.nor_base.specs.Wire.{wire};
ghost use Rattle.norprog_player.specs.Compared.{comparison, HasCompared, IsOneSidedPiece};
ghost use Rattle.norprog_player.specs.Compared.{StopsComparing};
ghost use Rattle.norprog_player.specs.Likeness.{Compares, ComparesWhole, past_by};

use crate::access::Access;
use crate::piece::{FAR, compare_piece};
use nor_base::{ByteIn, ByteOut};
use nor_cells::next_piece;
use nor_reader::{Mismatch, ReadBy, read_past};
use nor_serprog::Limits;

/// Compares the marked cells of the device's chip, from the lowest on, with a content that begins
/// at address 0; then what the chip gives past its end. It takes no memory.
///
/// `Exchange` where a read ended early; `Differs` with the lowest address of the cells, else past
/// the end, whose byte is another, after which four-byte mode was left.
pub(crate) fn compare_whole<R: ByteIn, W: ByteOut>(
    from: &mut R,
    to: &mut W,
    limits: &Limits,
    access: Access,
    content: &[u8],
    marks: &[bool],
) -> Result<(), Mismatch>
    requires size { length content.now < 2 ^ 32 }
    requires cells { length content.now ≡ 256 * length marks.now }
    ensures compared { ComparesWhole (wire (W.held to.old) (R.ahead from.old))
        (wire (W.held to.new) (R.ahead from.new))
        (comparison limits.now access content.now (IsMarked marks.now)) result }
{
    compare(from, to, limits, access, content, marks)?;
    read_past(from, to, limits, past_by(access), content)?;
    Ok(())
}

/// The same unless the chip is trusted, of which nothing is asked.
pub(crate) fn compare_unless_trusted<R: ByteIn, W: ByteOut>(
    from: &mut R,
    to: &mut W,
    limits: &Limits,
    access: Access,
    content: &[u8],
    marks: &[bool],
    trusted: bool,
) -> Result<(), Mismatch>
    requires size { length content.now < 2 ^ 32 }
    requires cells { length content.now ≡ 256 * length marks.now }
    ensures compared { MatchResult result
        (λ _. Compares (comparison limits.now access content.now (IsMarked marks.now)) trusted
        (wire (W.held to.old) (R.ahead from.old)) (wire (W.held to.new) (R.ahead from.new)))
        (λ why. (trusted ≡ false) × ComparesWhole (wire (W.held to.old) (R.ahead from.old))
        (wire (W.held to.new) (R.ahead from.new))
        (comparison limits.now access content.now (IsMarked marks.now)) (Err why)) }
{
    if trusted {
        return Ok(());
    }
    compare_whole(from, to, limits, access, content, marks)
}

/// By which instruction a chip is read past its end.
fn past_by(access: Access) -> ReadBy
    ensures { result ≡ past_by access }
{
    match access {
        Access::Four => ReadBy::Content { mode4: true },
        Access::Dedicated | Access::Entered { .. } | Access::Near => {
            ReadBy::Content { mode4: false }
        }
    }
}

/// The marked cells.
fn compare<R: ByteIn, W: ByteOut>(
    from: &mut R,
    to: &mut W,
    limits: &Limits,
    access: Access,
    content: &[u8],
    marks: &[bool],
) -> Result<(), Mismatch>
    requires size { length content.now < 2 ^ 32 }
    requires cells { length content.now ≡ 256 * length marks.now }
    ensures compared { MatchResult result
        (λ _. HasCompared (wire (W.held to.old) (R.ahead from.old))
        (wire (W.held to.new) (R.ahead from.new))
        (comparison limits.now access content.now (IsMarked marks.now)))
        (StopsComparing (wire (W.held to.old) (R.ahead from.old))
        (wire (W.held to.new) (R.ahead from.new))
        (comparison limits.now access content.now (IsMarked marks.now))) }
{
    let mut done = 0;
    while let Some((start, most)) = next_piece(marks, done, limits.asked as usize) {
        let len = len_on_side(start, most);
        let piece = &content[start..start + len];
        if let Err(why) = compare_piece(from, to, access, start as u32, piece) {
            return Err(why);
        }
        done = start + len;
    }
    Ok(())
}

/// How many of so many addresses from one on lie on the side of 2^24 on which the first does.
fn len_on_side(start: usize, most: usize) -> usize
    requires most { most < 2 ^ 24 }
    requires start { start < 2 ^ 32 }
    requires some { 0 < most }
    ensures some { 0 < result }
    ensures few { result ≤ most }
    ensures sided { IsOneSidedPiece start result }
{
    if start < FAR as usize {
        most.min(FAR as usize - start)
    } else {
        most
    }
}
