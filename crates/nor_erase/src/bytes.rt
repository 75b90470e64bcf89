//! Bytes that are there beside those that are wanted.

ghost use Rattle.std.specs.Prelude.{◌≡◌, ◌≤◌, ◌<◌, ◌+◌, ◌-◌, ℕ, false, length, zip, MatchOption};
ghost use Rattle.std.specs.List.{list_any};
ghost use Rattle.nor_base.specs.Need.{is_due};
ghost use Rattle.nor_erase.specs.Bytes.{any_pair, raises_bit, is_kept, is_due_over, IsFirstDue};
ghost use Rattle.nor_erase.specs.Bytes.{NoneDue};

use crate::lanes::{dirty_lanes, is_due_lanes, rises_lanes};
use nor_base::Meaning;
use std::simd::prelude::*;

/// Whether some bit is 0 in `have` and 1 in `want`: only an erase sets it.
pub fn rises(have: &[u8], want: &[u8]) -> bool
    requires { length have.now ≡ length want.now }
    ensures { result ≡ list_any (λ pair. raises_bit pair.0 pair.1) (zip have.now want.now) }
{
    let (old_chunks, old_rest) = have.as_chunks::<32>();
    let (new_chunks, new_rest) = want.as_chunks::<32>();
    rises_chunks(old_chunks, new_chunks) || rises_rest(old_rest, new_rest)
}

/// [`rises`] of chunks of 32 bytes.
fn rises_chunks(have: &[[u8; 32]], want: &[[u8; 32]]) -> bool
    requires { length have.now ≡ length want.now }
    ensures { result ≡ list_any (any_pair raises_bit) (zip have.now want.now) }
{
    have.iter().zip(want).any(|(old, new)| rises_lanes(
        u8x32::from_array(*old),
        u8x32::from_array(*new),
    ))
}

/// [`rises`] of what is left after the chunks.
fn rises_rest(have: &[u8], want: &[u8]) -> bool
    requires { length have.now ≡ length want.now }
    ensures { result ≡ list_any (λ pair. raises_bit pair.0 pair.1) (zip have.now want.now) }
{
    have.iter().zip(want).any(|(old, new)| *old & *new != *new)
}

/// Whether some byte differs and isn't FFh in `have`: where only erased bytes may be programmed, an
/// erase must come first.
pub fn dirty(have: &[u8], want: &[u8]) -> bool
    requires { length have.now ≡ length want.now }
    ensures { result ≡ list_any (λ pair. is_kept pair.0 pair.1) (zip have.now want.now) }
{
    let (old_chunks, old_rest) = have.as_chunks::<32>();
    let (new_chunks, new_rest) = want.as_chunks::<32>();
    dirty_chunks(old_chunks, new_chunks) || dirty_rest(old_rest, new_rest)
}

/// [`dirty`] of chunks of 32 bytes.
fn dirty_chunks(have: &[[u8; 32]], want: &[[u8; 32]]) -> bool
    requires { length have.now ≡ length want.now }
    ensures { result ≡ list_any (any_pair is_kept) (zip have.now want.now) }
{
    have.iter().zip(want).any(|(old, new)| dirty_lanes(
        u8x32::from_array(*old),
        u8x32::from_array(*new),
    ))
}

/// [`dirty`] of what is left after the chunks.
fn dirty_rest(have: &[u8], want: &[u8]) -> bool
    requires { length have.now ≡ length want.now }
    ensures { result ≡ list_any (λ pair. is_kept pair.0 pair.1) (zip have.now want.now) }
{
    have.iter()
        .zip(want)
        .any(|(old, new)| *old != *new && *old != 0xFF)
}

/// The lowest address whose byte is due, of bytes that begin at `at`; `None` where none is.
///
/// A byte is due where it has to change and no program may do it.
pub fn first_due(meaning: &Meaning, at: u32, have: &[u8], want: &[u8]) -> Option<u32>
    requires lengths { length have.now ≡ length want.now }
    requires inside { at + length have.now ≤ meaning.now.size }
    ensures { MatchOption result (NoneDue meaning.now (have.now, want.now) at at)
        (IsFirstDue meaning.now (have.now, want.now) at at) }
{
    next_due(meaning, at, have, want, at)
}

/// The lowest address from `from` on whose byte is due, of bytes that begin at `at`.
pub(crate) fn next_due(
    meaning: &Meaning,
    at: u32,
    have: &[u8],
    want: &[u8],
    from: u32,
) -> Option<u32>
    requires lengths { length have.now ≡ length want.now }
    requires inside { at + length have.now ≤ meaning.now.size }
    requires from { at ≤ from }
    ensures { MatchOption result (NoneDue meaning.now (have.now, want.now) at from)
        (IsFirstDue meaning.now (have.now, want.now) at from) }
{
    meaning.acceptance();
    let quiet = skip_quiet(meaning, have, want, (from - at) as usize);
    for i in quiet..have.len() {
        if is_due(meaning, have[i], want[i]) {
            return Some(at + i as u32);
        }
    }
    None
}

/// A place from `start` on before which, from there on, no byte is due: the first 32 bytes that
/// hold one begin there, or fewer bytes are left.
fn skip_quiet(meaning: &Meaning, have: &[u8], want: &[u8], start: usize) -> usize
    requires { length have.now ≡ length want.now }
    ensures low { start ≤ result }
    ensures high { start ≤ length have.now → result ≤ length have.now }
    ensures quiet { (k : ℕ) → start ≤ k → k < result
        → is_due meaning.now have.now want.now k ≡ false }
{
    let mut i = start;
    while i < have.len() && have.len() - i >= 32 {
        if is_due_lanes(
            meaning,
            u8x32::from_slice(&have[i..]),
            u8x32::from_slice(&want[i..]),
        ) {
            return i;
        }
        i += 32;
    }
    i
}

/// Whether a byte has to change and no program may do it.
fn is_due(meaning: &Meaning, old: u8, new: u8) -> bool
    ensures { result ≡ is_due_over meaning.now old new }
{
    old != new
        && if meaning.erased_only {
            old != 0xFF
        } else {
            old & new != new
        }
}
