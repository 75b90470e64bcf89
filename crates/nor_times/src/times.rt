//! What a chip's basic table tells of its times.

ghost use Rattle.std.specs.Prelude.{◌≡◌, ◌≤◌, ◌<◌, Option};
ghost use Rattle.nor_times.specs.Times.{byte_time, erase_time, erase_unit, page_time, byte_unit};
ghost use Rattle.nor_times.specs.Times.{page_unit, factor, times_by, times_in, times_of};

use nor_sfdp::{SfdpTable, bits, is_set, table};

/// The ID of the basic flash parameter table.
const BASIC: u16 = 0xFF00;

/// How long a chip is busy with its erases and programs (JESD216B, FF00h DWORDs 10 and 11), in
/// microseconds.
#[derive(Clone, Copy)]
pub struct Times {
    /// A block's typical erase, by its kind, 1 to 4. Of an absent kind it says nothing.
    pub erases: [u32; 4],
    /// How many times the typical erase the worst one takes.
    pub erase_factor: u32,
    /// A page's typical program.
    pub page: u32,
    /// The first byte of a typical program.
    pub first_byte: u32,
    /// Each further byte of a typical program.
    pub further_byte: u32,
    /// How many times the typical program the worst one takes.
    pub program_factor: u32,
}

/// The times that a chip's SFDP bytes tell: those of the basic table that [`nor_sfdp::read`] takes.
///
/// `None` where [`nor_sfdp::table`] finds no such table, and where it has fewer than 11 DWORDs.
#[tactic(auto, unfolding(crate::specs::Times::times_of))]
pub fn read_times(bytes: &[u8]) -> Option<Times>
    ensures { result ≡ times_of bytes.now }
{
    match table(bytes, BASIC) {
        Ok(Some(basic)) => times_in(&basic),
        _ => None,
    }
}

/// The times that a basic table tells, where its DWORDs 10 and 11 are there.
#[tactic(auto, unfolding(crate::specs::Times::times_in))]
fn times_in(basic: &SfdpTable<'_>) -> Option<Times>
    ensures { result ≡ times_in basic.now }
{
    let dword10 = basic.dword(10)?;
    let dword11 = basic.dword(11)?;
    Some(times_by(dword10, dword11))
}

/// The times that DWORDs 10 and 11 tell.
#[tactic(auto, unfolding(crate::specs::Times::times_by))]
fn times_by(dword10: u32, dword11: u32) -> Times
    ensures { result ≡ times_by dword10 dword11 }
{
    Times {
        erases: [
            erase_time(bits(dword10, 8, 4), bits(dword10, 10, 9)),
            erase_time(bits(dword10, 15, 11), bits(dword10, 17, 16)),
            erase_time(bits(dword10, 22, 18), bits(dword10, 24, 23)),
            erase_time(bits(dword10, 29, 25), bits(dword10, 31, 30)),
        ],
        erase_factor: factor(bits(dword10, 3, 0)),
        page: page_time(bits(dword11, 12, 8), is_set(dword11, 13)),
        first_byte: byte_time(bits(dword11, 17, 14), is_set(dword11, 18)),
        further_byte: byte_time(bits(dword11, 22, 19), is_set(dword11, 23)),
        program_factor: factor(bits(dword11, 3, 0)),
    }
}

/// How many times the typical time the worst one is.
fn factor(count: u32) -> u32
    requires { count < 16 }
    ensures { result ≡ factor count }
{
    2 * (count + 1)
}

/// The time of an erase.
fn erase_time(count: u32, unit: u32) -> u32
    requires { count < 32 }
    ensures { result ≡ erase_time count unit }
{
    (count + 1) * erase_unit(unit)
}

/// The unit of an erase: 1, 16 or 128 ms, or 1 s.
fn erase_unit(unit: u32) -> u32
    ensures value { result ≡ erase_unit unit }
    ensures small { result ≤ 1000000 }
{
    match unit {
        0 => 1_000,
        1 => 16_000,
        2 => 128_000,
        _ => 1_000_000,
    }
}

/// The time of a page's program.
fn page_time(count: u32, long: bool) -> u32
    requires { count < 32 }
    ensures { result ≡ page_time count long }
{
    (count + 1) * page_unit(long)
}

/// The unit of a page's program: 8 or 64 us.
fn page_unit(long: bool) -> u32
    ensures value { result ≡ page_unit long }
    ensures small { result ≤ 64 }
{
    if long { 64 } else { 8 }
}

/// The time of a byte's program.
fn byte_time(count: u32, long: bool) -> u32
    requires { count < 16 }
    ensures { result ≡ byte_time count long }
{
    (count + 1) * byte_unit(long)
}

/// The unit of a byte's program: 1 or 8 us.
fn byte_unit(long: bool) -> u32
    ensures value { result ≡ byte_unit long }
    ensures small { result ≤ 8 }
{
    if long { 8 } else { 1 }
}
