//! The bytes that a chip must hold in the end: where the image of an Intel HEX text gives a chosen
//! address a byte, that byte; elsewhere the byte that was there.
//!
//! Chip address a takes the image's byte at `base + a`, and nothing is taken from 2^32 on: such a
//! sum doesn't begin again at 0. These rules are this project's; no public standard speaks of them.
#![tactic(auto)]

ghost use Rattle.std.specs.Prelude.{◌≡◌, ◌↔◌, ℕ, true, ◌+◌, ◌^◌, ◌≤◌, List, length, map};
ghost use Rattle.std.specs.Prelude.{slice_range, count_by, MatchOption};
ghost use Rattle.std.specs.List.{enumerate_from};
ghost use Rattle.std.specs.List.Sorted.{IsStrictlyIncreasing};
ghost use Rattle.nor_base.specs.Target.{target, target_byte, is_ignored};
ghost use Rattle.nor_hex.specs.Image.{byte_at, addresses, HasNoneFrom};
ghost use Rattle.nor_layout.specs.Chosen.{has};
ghost use Rattle.nor_target.specs.Ignored.{HasNoPlace, ignored_below};
ghost use Rattle.nor_target.specs.Runs.{HasNoChosen, IsNextChosen, HasNoRun, IsNextRun, IsLaid};
ghost use Rattle.nor_target.specs.Runs.{overlay};

mod shares;

pub use nor_hex::Image;
pub use nor_layout::Chosen;
pub use shares::{Share, chosen_regions, first_empty, share_of};

/// Fills `want` with the target of the chip's addresses from `at` on, where `have` is what the chip
/// holds there: the image's byte at `base` plus the address where the address is chosen and the
/// image gives one, else what the chip holds. It takes no memory.
pub fn fill(image: &Image, base: u32, chosen: &Chosen, at: u32, have: &[u8], want: &mut [u8])
    requires lengths { length have.now ≡ length want.old }
    requires inside { at + length have.now ≤ 2 ^ 32 }
    ensures bytes { want.new
        ≡ map (λ p. target_byte (byte_at image.now) base (has chosen.now) p.0 p.1)
        (enumerate_from at have.now) }
    ensures part { (content : List ℕ) → slice_range content at (at + length have.now) ≡ have.now
        → want.new ≡ slice_range (target (byte_at image.now) base (has chosen.now) content) at
        (at + length have.now) }
{
    want.copy_from_slice(have);
    let mut done = 0;
    while let Some((begin, end)) = next_chosen(chosen, at, done, have.len()) {
        lay(want, image, base, at, begin, end);
        done = end;
    }
}

/// The next chosen places from `done` on and below `len`, the first and the one past the last.
/// Place 0 is the chip's address `at`.
fn next_chosen(chosen: &Chosen, at: u32, done: usize, len: usize) -> Option<(usize, usize)>
    requires done { done ≤ len }
    requires inside { at + len ≤ 2 ^ 32 }
    ensures { MatchOption result (HasNoChosen (has chosen.now) at done len)
        (IsNextChosen (has chosen.now) at done len) }
{
    let address = u32::try_from(u64::from(at) + done as u64).ok()?;
    let (first, last) = chosen.next_run(address)?;
    let begin = (first - at) as usize;
    if begin >= len {
        return None;
    }
    let end = (last - at) as usize + 1;
    Some((begin, end.min(len)))
}

/// Lays the image's bytes over the places from `begin` on and below `end`. Place 0 is the chip's
/// address `at`.
fn lay(want: &mut [u8], image: &Image, base: u32, at: u32, begin: usize, end: usize)
    requires order { begin ≤ end }
    requires within { end ≤ length want.old }
    requires inside { at + end ≤ 2 ^ 32 }
    ensures { IsLaid (overlay (byte_at image.now) base at) want.old want.new begin end }
{
    let mut done = begin;
    while let Some((first, bytes)) = next_run(image, base, at, done, end) {
        done = first + bytes.len();
        want[first..done].copy_from_slice(bytes);
    }
}

/// The image's next bytes for the chip's addresses from `at + done` on and below `at + len`, with
/// the place of the first of them, from `at` on.
fn next_run(image: &Image, base: u32, at: u32, done: usize, len: usize) -> Option<(usize, &[u8])>
    requires done { done ≤ len }
    requires inside { at + len ≤ 2 ^ 32 }
    ensures { MatchOption result (HasNoRun (overlay (byte_at image.now) base at) done len)
        (λ run. IsNextRun (overlay (byte_at image.now) base at) done len run.0 run.1.now) }
{
    let start = u64::from(base) + u64::from(at);
    let from = u32::try_from(start + done as u64).ok()?;
    let (place, run) = image.run_from(from)?;
    let begin = (u64::from(place) - start) as usize;
    if begin >= len {
        return None;
    }
    Some((begin, &run[..run.len().min(len - begin)]))
}

/// How many addresses of the image are `base + a` for no chosen address a below `size` (bytes of
/// the chip). It takes no memory.
pub fn ignored(image: &Image, base: u32, chosen: &Chosen, size: u32) -> u64
    ensures count { result ≡ count_by (λ pair. is_ignored base (has chosen.now) size pair.0)
        image.now }
    ensures each_once { IsStrictlyIncreasing (addresses image.now) }
    ensures which { (at : ℕ) → (is_ignored base (has chosen.now) size at ≡ true)
        ↔ HasNoPlace base (has chosen.now) size at }
{
    // Called for what it promises: the addresses rise, and none is past FFFFFFFFh.
    let _ = image.iter();
    let mut left = image.count();
    let mut done = 0;
    while let Some((begin, end)) = next_chosen(chosen, 0, done, size as usize) {
        left -= given(image, base, begin, end);
        done = end;
    }
    left
}

/// How many addresses of the image are `base + a` for an address a of the chip from `begin` on and
/// below `end`.
fn given(image: &Image, base: u32, begin: usize, end: usize) -> u64
    requires order { begin ≤ end }
    requires inside { end ≤ 2 ^ 32 }
    requires rising { IsStrictlyIncreasing (addresses image.now) }
    requires below { HasNoneFrom image.now (2 ^ 32) }
    ensures { result + ignored_below image.now base (λ _. true) end
        ≡ ignored_below image.now base (λ _. true) begin }
{
    let mut count = 0;
    let mut done = begin;
    while let Some((first, bytes)) = next_run(image, base, 0, done, end) {
        count += bytes.len() as u64;
        done = first + bytes.len();
    }
    count
}
