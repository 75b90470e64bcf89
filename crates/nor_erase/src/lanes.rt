//! 32 bytes at a time.

ghost use Rattle.std.specs.Prelude.{◌≡◌, zip};
ghost use Rattle.std.specs.List.{list_any};
ghost use Rattle.nor_erase.specs.Bytes.{raises_bit, is_kept, is_due_over};

use nor_base::Meaning;
use std::simd::prelude::*;

/// Whether some bit is 0 in a lane of `have` and 1 in that of `want`.
pub fn rises_lanes(have: u8x32, want: u8x32) -> bool
    ensures { result ≡ list_any (λ pair. raises_bit pair.0 pair.1) (zip have want) }
{
    (have & want).simd_ne(want).any()
}

/// Whether some lane differs and isn't FFh in `have`.
pub(crate) fn dirty_lanes(have: u8x32, want: u8x32) -> bool
    ensures { result ≡ list_any (λ pair. is_kept pair.0 pair.1) (zip have want) }
{
    let erased = u8x32::splat(0xFF);
    have.simd_ne(want)
        .select(have, erased)
        .simd_ne(erased)
        .any()
}

/// Whether some lane has to change and no program may do it.
pub(crate) fn is_due_lanes(meaning: &Meaning, have: u8x32, want: u8x32) -> bool
    ensures { result ≡ list_any (λ pair. is_due_over meaning.now pair.0 pair.1) (zip have want) }
{
    if meaning.erased_only {
        dirty_lanes(have, want)
    } else {
        rises_lanes(have, want)
    }
}
