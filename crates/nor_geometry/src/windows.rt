//! Windows: the parts in which a chip's content is worked on.

ghost use Rattle.std.specs.Prelude.{◌≡◌, ℕ, ◌%◌};
ghost use Rattle.nor_base.specs.Accepted.{IsPowerOfTwo};
ghost use Rattle.nor_base.specs.Blocks.{Block, IsLegalBlock};
ghost use Rattle.nor_geometry.specs.Window.{IsWindowSize, IsUncrossed, live_size};

use nor_base::Meaning;

/// The least window.
const LEAST: u32 = 4096;

/// Bytes of a window: the greatest size of a live erase kind, and at least 4096. It is a power of
/// two up to 2^24.
///
/// Windows begin at its multiples; no legal block lies across the border of two, and no page.
pub fn window_size(meaning: &Meaning) -> u32
    ensures size { IsWindowSize meaning.now result }
    ensures power { IsPowerOfTwo 12 24 result }
    ensures blocks { (border : ℕ) → border % result ≡ 0 → (b : Block) → IsLegalBlock meaning.now b
        → IsUncrossed border b.start b.size }
    ensures pages { (border start : ℕ) → border % result ≡ 0 → start % meaning.now.page ≡ 0
        → IsUncrossed border start meaning.now.page }
{
    meaning.acceptance();
    let mut window = LEAST;
    for kind in 1..5 {
        window = window.max(live_size(meaning, kind));
    }
    window
}

/// The bytes of a block of a live kind; 0 where the kind isn't live.
fn live_size(meaning: &Meaning, kind: u8) -> u32
    ensures { result ≡ live_size meaning.now kind }
{
    if !meaning.is_allowed(kind) {
        return 0;
    }
    meaning.block_size(kind)
}
