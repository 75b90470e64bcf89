//! Whether a content shows the address mode that it was read in.

ghost use Rattle.std.specs.Prelude.{◌≡◌, ◌↔◌, ◌≤◌, ◌^◌, true, length};
ghost use Rattle.nor_reader.specs.Telling.{HasPeriod, IsTelling, ShowsMode, is_near};

use nor_serprog::Limits;

/// What three address bytes reach.
const REACH: usize = 1 << 24;

/// By so many bytes further on a second reading is cut than the first.
pub(crate) const SHIFT: usize = 2;

/// Whether a content that was read twice shows the address mode: a chip in the other one would have
/// given bytes with a period in each piece, and some piece has none.
pub fn shows_mode(limits: &Limits, mode4: bool, content: &[u8]) -> bool
    requires size { length content.now ≤ 2 ^ 32 }
    ensures { (result ≡ true) ↔ ShowsMode mode4 limits.now.asked content.now }
{
    let most = limits.asked as usize;
    let mut done = 0;
    while done < content.len() {
        if !is_near(mode4, done, most, content.len()) {
            return false;
        }
        let len = (content.len() - done).min(most);
        if is_telling(&content[done..done + len]) {
            return true;
        }
        done += len;
    }
    false
}

/// Whether a piece of a reading, and that of a second one which begins within it, are read by the
/// address bytes of the mode.
fn is_near(mode4: bool, at: usize, most: usize, size: usize) -> bool
    requires start { at ≤ size }
    requires size { size ≤ 2 ^ 32 }
    requires most { most ≤ 2 ^ 24 }
    ensures { result ≡ is_near mode4 at most size }
{
    mode4 || (at + SHIFT + most).min(size) <= REACH
}

/// Whether no chip in the other mode gives this piece.
fn is_telling(piece: &[u8]) -> bool
    ensures { (result ≡ true) ↔ IsTelling piece.now }
{
    if piece.len() < 3 {
        return false;
    }
    let rest = &piece[3..];
    for period in 255..766 {
        if has_period(rest, period) {
            return false;
        }
    }
    true
}

/// Whether each byte is the one that is so many further on.
fn has_period(bytes: &[u8], period: usize) -> bool
    ensures { (result ≡ true) ↔ HasPeriod period bytes.now }
{
    if period >= bytes.len() {
        return true;
    }
    bytes[period..] == bytes[..bytes.len() - period]
}
