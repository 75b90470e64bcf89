//! Where the data of a record lies.

ghost use Rattle.std.specs.Prelude.{◌≡◌, ℕ, ◌+◌, ◌^◌, ◌<◌, ◌≤◌, IsTrue};
ghost use Rattle.nor_hex.specs.Image.{address_of, is_base, base_in};

use crate::record::HexLine;

/// What the latest extended address record says: a segment base has the address's bits 4 to 19,
/// and a linear base its bits 16 to 31.
#[derive(Clone, Copy)]
pub(crate) enum Base {
    Linear(u16),
    Segment(u16),
}

/// The address of the byte at `index` in a data record with this load offset. In a segment the
/// offset wraps at 64 KiB; linear addresses wrap at 2^32.
pub(crate) fn address(base: Base, offset: u16, index: usize) -> u32
    requires { index < 2 ^ 63 }
    ensures { result ≡ address_of base (offset + index) }
{
    let offset = u64::from(offset) + index as u64;
    match base {
        Base::Linear(upper) => ((u64::from(upper) * 65536 + offset) % (1 << 32)) as u32,
        Base::Segment(paragraph) => u32::from(paragraph) * 16 + (offset % 65536) as u32,
    }
}

/// How many bytes from this load offset on lie before the addresses wrap. Past there as many again
/// as a record has lie in one run.
pub(crate) fn room(base: Base, offset: u16) -> usize
    ensures some { 0 < result }
    ensures fits { address_of base (offset + 0) + result ≤ 2 ^ 32 }
    ensures straight { (i : ℕ) → i < result → address_of base (offset + i)
        ≡ address_of base (offset + 0) + i }
    ensures rest_fits { address_of base (offset + result) + 255 ≤ 2 ^ 32 }
    ensures wrapped { (i : ℕ) → i < 255 → address_of base (offset + (result + i))
        ≡ address_of base (offset + result) + i }
{
    let offset = usize::from(offset);
    match base {
        Base::Linear(upper) => (1 << 32) - (usize::from(upper) * 65536 + offset),
        Base::Segment(_) => 65536 - offset,
    }
}

/// The base in an extended segment address record or an extended linear address record.
pub(crate) fn base_in(line: &HexLine<'_>) -> Base
    requires { IsTrue (is_base line.now) }
    ensures { result ≡ base_in line.now }
{
    let is_segment = line.kind == 2;
    let upper = u16::from(line.byte(0)) * 256 + u16::from(line.byte(1));
    if is_segment {
        Base::Segment(upper)
    } else {
        Base::Linear(upper)
    }
}
