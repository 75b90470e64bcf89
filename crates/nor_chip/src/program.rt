//! What a program does to the array.

ghost use Rattle.std.specs.Prelude.{◌≡◌, ◌<◌, ◌≤◌, ◌+◌, ◌-◌, ◌%◌, length, slice_index, true};
ghost use Rattle.nor_base.specs.Effect.{is_program, place as place_of, may_program};
ghost use Rattle.nor_base.specs.Effect.{is_barred as is_barred_of, barred, programmed, page_start};
ghost use Rattle.nor_chip.specs.Sent.{sent};

use nor_base::{Meaning, Wrong};
use nor_decode::Seen;

/// Where byte `index` of a program goes: on from the address, and round within its page.
pub fn place(page: u32, address: u32, index: usize) -> usize
    requires { 0 < page }
    ensures value { result ≡ place_of page address index }
    ensures upto { result < page_start page address + page }
{
    let offset = address % page;
    place_in(page, address - offset, offset, index)
}

/// Where byte `index` goes in the page that starts at `start`, in which the first one goes to byte
/// `offset`.
fn place_in(page: u32, start: u32, offset: u32, index: usize) -> usize
    requires { 0 < page }
    ensures value { result ≡ start + (offset + index) % page }
    ensures upto { result < start + page }
{
    let turn = page as usize;
    start as usize + remainder(offset as usize + remainder(index, turn), turn)
}

/// The remainder of a number by a page.
// most numbers are below it, and a division for each byte would take long
fn remainder(number: usize, page: usize) -> usize
    requires { 0 < page }
    ensures { result ≡ number % page }
{
    if number < page { number } else { number % page }
}

/// Of so many bytes the first that isn't overwritten by a later one: a page has room for the last
/// ones.
fn first_kept(page: u32, count: usize) -> usize
    ensures { result ≡ count - page }
{
    count.saturating_sub(page as usize)
}

/// How many bytes a program sends.
fn count_sent(seen: &Seen<'_>) -> usize
    requires { is_program seen.now.what ≡ true }
    ensures { result ≡ length (sent seen.now) }
{
    seen.count()
}

/// Whether a byte may be programmed over the one that the array has there.
///
/// A program only clears bits, so not where the byte has a 1 and the array a 0 (W25Q256JV
/// datasheet, Page Program). Under the profile that programs only erased bytes it may be done over
/// FFh, whatever the byte, and over nothing else.
pub fn may_program(meaning: &Meaning, old: u8, byte: u8) -> bool
    ensures { result ≡ may_program meaning.now old byte }
{
    if meaning.erased_only {
        old == 0xFF
    } else {
        old & byte == byte
    }
}

/// Which wrong a program is that covers a byte where it may not be done.
pub(crate) fn barred(meaning: &Meaning) -> Wrong
    ensures { result ≡ barred meaning.now }
{
    if meaning.erased_only {
        Wrong::NotErased
    } else {
        Wrong::Raised
    }
}

/// Whether byte `index` of a program may be programmed over the one that the array has there.
// over an erased byte any may, so its clocks aren't looked at: most programs go over erased bytes
fn may_send(meaning: &Meaning, seen: &Seen<'_>, index: usize, old: u8) -> bool
    requires program { is_program seen.now.what ≡ true }
    requires sent { index < length (sent seen.now) }
    ensures { result ≡ may_program meaning.now old (slice_index (sent seen.now) index) }
{
    old == 0xFF || may_program(meaning, old, seen.byte(index))
}

/// Whether some byte of the program may not be programmed where it goes.
pub(crate) fn is_barred(meaning: &Meaning, page: u32, seen: &Seen<'_>, array: &[u8]) -> bool
    requires program { is_program seen.now.what ≡ true }
    requires some { 0 < page }
    requires inside { page_start page seen.now.address + page ≤ length array.now }
    ensures { result ≡ is_barred_of meaning.now page seen.now.address (sent seen.now) array.now }
{
    let count = count_sent(seen);
    let offset = seen.address % page;
    let start = seen.address - offset;
    for index in first_kept(page, count)..count {
        let old = array[place_in(page, start, offset, index)];
        if !may_send(meaning, seen, index, old) {
            return true;
        }
    }
    false
}

/// Clears the bits of the array that the program's bytes have clear.
pub fn program(page: u32, seen: &Seen<'_>, array: &mut [u8])
    requires program { is_program seen.now.what ≡ true }
    requires some { 0 < page }
    requires inside { page_start page seen.now.address + page ≤ length array.old }
    ensures { array.new ≡ programmed page seen.now.address (sent seen.now) array.old }
{
    let count = count_sent(seen);
    let offset = seen.address % page;
    let start = seen.address - offset;
    for index in first_kept(page, count)..count {
        let at = place_in(page, start, offset, index);
        array[at] &= seen.byte(index);
    }
}
