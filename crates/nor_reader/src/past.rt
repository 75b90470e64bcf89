//! What a chip gives past its end.

ghost use Rattle.std.specs.Prelude.{◌≡◌, ◌≤◌, length, MatchResult};
ghost use Rattle.nor_reader.specs.Compared.{CountsMismatch};
ghost use Rattle.nor_serprog.specs.declared.fault.Fault.TheVariants.{Read, Write};
ghost use Rattle.nor_reader.specs.Harmless.{HasSentHarmless, SendsHarmless};
ghost use Rattle.nor_reader.specs.Past.{past_end, reach, telling_past, ReadsPast};
ghost use Rattle.nor_reader.specs.Reads.{reads};
ghost use Rattle.nor_base.specs.Wire.{wire};

use crate::by::ReadBy;
use crate::difference::Mismatch;
use crate::piece::compare_piece;
use nor_base::{ByteIn, ByteOut};
use nor_serprog::Limits;

/// The largest block of an erase that is looked for.
const BLOCK: usize = 1 << 16;

/// At so many addresses past its end a chip is read at least.
const LEAST: usize = 4096;

/// Has the device read its chip past the content's end, up to a multiple of 64 KiB and at least
/// 4096 bytes, and compares that with the content's first bytes, which a chip of just its size
/// gives there, as far as the address bytes reach.
///
/// `Differs` names the lowest address whose byte is another. `Exchange`: one ended early, after
/// which nothing was sent.
pub fn read_past<R: ByteIn, W: ByteOut>(
    from: &mut R,
    to: &mut W,
    limits: &Limits,
    by: ReadBy,
    content: &[u8],
) -> Result<(), Mismatch>
    ensures past { ReadsPast (reads limits.now.asked by) (wire (W.held to.old) (R.ahead from.old))
        (wire (W.held to.new) (R.ahead from.new)) result content.now }
    ensures harmless { MatchResult result (λ _. HasSentHarmless (W.held to.old) (W.held to.new))
        (λ _. SendsHarmless (W.held to.old) (W.held to.new)) }
    ensures counts { CountsMismatch Read (R.count from.old) (R.count from.new) result
        × CountsMismatch Write (W.count to.old) (W.count to.new) result }
{
    let size = content.len();
    let most = limits.asked as usize;
    let past = past_end(by, content);
    let mut done = 0;
    while done < past {
        let len = (past - done).min(most);
        let at = (size + done) as u32;
        if let Err(why) = compare_piece(from, to, by, at, &content[done..done + len]) {
            return Err(why);
        }
        done += len;
    }
    Ok(())
}

/// At how many addresses past its end a chip of this content is read.
fn past_end(by: ReadBy, content: &[u8]) -> usize
    ensures { result ≡ past_end by (length content.now) }
{
    telling_past(content.len()).min(reach(by).saturating_sub(content.len()))
}

/// How many addresses past its end tell where a chip of so many bytes ends.
fn telling_past(size: usize) -> usize
    ensures is { result ≡ telling_past size }
    ensures few { result ≤ 65536 }
{
    size.min(LEAST.max((BLOCK - size % BLOCK) % BLOCK))
}

/// The first address that the address bytes of a read don't reach.
fn reach(by: ReadBy) -> usize
    ensures { result ≡ reach by }
{
    match by {
        ReadBy::Content { mode4: true } | ReadBy::FourBytes => 1 << 32,
        ReadBy::Content { mode4: false } | ReadBy::Tables => 1 << 24,
        ReadBy::Entered { .. } => 0,
    }
}
