//! The tables behind the parameter headers.

ghost use Rattle.std.specs.Prelude.{◌≡◌, ◌+◌, ◌*◌, ◌<◌, ◌^◌, false, nat_lt, length};
ghost use Rattle.nor_sfdp.specs.Bits.{dword_at, dword_count, word, word_in};
ghost use Rattle.std.specs.Option.{option_map, option_map_or};
ghost use Rattle.nor_sfdp.specs.Tables.{cut_of, cut_where_there, table_of, tables_of};

use crate::fault::SfdpFault;
use crate::header::{Header, header_count, newest};
use byteorder::{ByteOrder, LittleEndian};
use std::marker::Model;

/// A parameter table. It borrows its DWORDs; clauses see their bytes.
#[derive(Drop)]
pub struct SfdpTable<'a> {
    bytes: &'a [u8],
}

impl<'a> Model for SfdpTable<'a> {
    ghost use Rattle.std.specs.Prelude.{List, ℕ};

    ghost Value = { List ℕ };

    ghost view = { λ table. table.bytes.now };
}

impl<'a> SfdpTable<'a> {
    /// The DWORD with a number, which counts from 1. `None` for 0 and past the table's length.
    #[tactic(auto, unfolding(crate::specs::Bits::dword_at))]
    pub fn dword(&self, i: usize) -> Option<u32>
        ensures { result ≡ dword_at self.now i }
    {
        if i == 0 || i > self.bytes.len() / 4 {
            return None;
        }
        Some(LittleEndian::read_u32(&self.bytes[4 * (i - 1)..]))
    }

    /// The number of DWORDs.
    pub(crate) fn len(&self) -> usize
        ensures count { result ≡ dword_count self.now }
        ensures small { result < 2 ^ 62 }
    {
        self.bytes.len() / 4
    }

    /// The DWORD with a number, or 0 where there is none.
    pub(crate) fn word(&self, i: usize) -> u32
        ensures { result ≡ word self.now i }
    {
        self.dword(i).unwrap_or(0)
    }
}

/// The DWORD with a number of a table that may be missing, or 0 where there is none.
pub(crate) fn word_in(table: Option<&SfdpTable<'_>>, i: usize) -> u32
    ensures { result ≡ word_in (option_map (λ t. t.now) table.entry) i }
{
    table.map_or(0, |table| table.word(i))
}

/// The table of an ID, by the first of its headers of major revision 1 with the greatest minor
/// revision (JESD216B, 6.2 and 6.3). `None` where there is no such header.
///
/// `Signature`, then `Truncated` (headers), then `Major`, then `Truncated` where the table ends
/// past the bytes.
#[tactic(auto, unfolding(crate::specs::Tables::table_of))]
pub fn table(bytes: &[u8], id: u16) -> Result<Option<SfdpTable<'_>>, SfdpFault>
    ensures { result ≡ table_of bytes.now id }
{
    let count = header_count(bytes)?;
    table_where_there(bytes, newest(bytes, count, id))
}

/// The table of a header.
#[tactic(auto, unfolding(crate::specs::Tables::cut_of))]
fn table_at<'a>(bytes: &'a [u8], header: &Header) -> Result<SfdpTable<'a>, SfdpFault>
    ensures { result ≡ cut_of bytes.now header.now }
{
    let begin = header.address as usize;
    let length = 4 * usize::from(header.dwords);
    if bytes.len() < begin + length {
        return Err(SfdpFault::Truncated);
    }
    Ok(SfdpTable {
        bytes: &bytes[begin..begin + length],
    })
}

/// The table of a header that may be missing.
#[tactic(auto, unfolding(crate::specs::Tables::cut_where_there))]
fn table_where_there<'a>(
    bytes: &'a [u8],
    header: Option<Header>,
) -> Result<Option<SfdpTable<'a>>, SfdpFault>
    ensures { result ≡ cut_where_there bytes.now header }
{
    match header {
        None => Ok(None),
        Some(header) => Ok(Some(table_at(bytes, &header)?)),
    }
}

/// The tables that a meaning is read from.
#[derive(Drop)]
pub(crate) struct Tables<'a> {
    /// The basic flash parameter table FF00h.
    pub basic: SfdpTable<'a>,
    /// The sector map FF81h.
    pub sectors: Option<SfdpTable<'a>>,
    /// The four-byte address instruction table FF84h.
    pub four_byte: Option<SfdpTable<'a>>,
}

/// The tables that the bytes have headers for.
#[tactic(auto, unfolding(crate::specs::Tables::tables_of))]
pub(crate) fn tables_in(bytes: &[u8]) -> Result<Tables<'_>, SfdpFault>
    ensures { result ≡ tables_of bytes.now }
{
    let count = header_count(bytes)?;
    let basic = newest(bytes, count, 0xFF00).ok_or(SfdpFault::NoBasic)?;
    let sectors = newest(bytes, count, 0xFF81);
    let four_byte = newest(bytes, count, 0xFF84);
    if basic.dwords < 9 || is_short(four_byte) {
        return Err(SfdpFault::ShortTable);
    }
    Ok(Tables {
        basic: table_at(bytes, &basic)?,
        sectors: table_where_there(bytes, sectors)?,
        four_byte: table_where_there(bytes, four_byte)?,
    })
}

/// Whether a four-byte address instruction table is there and has no two DWORDs.
fn is_short(four_byte: Option<Header>) -> bool
    ensures { result ≡ option_map_or (λ header. nat_lt header.dwords 2) four_byte false }
{
    four_byte.is_some_and(|header| header.dwords < 2)
}
