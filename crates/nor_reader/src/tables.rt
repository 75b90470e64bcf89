//! The SFDP tables of the chip behind a device.

ghost use Rattle.std.specs.Prelude.{◌≡◌, ◌↔◌, ◌≤◌, ◌^◌, true, length};
ghost use Rattle.std.specs.Prelude.{IfOk, MatchResult};
ghost use Rattle.nor_reader.specs.declared.tables.TablesFault.TheVariants.{Memory};
ghost use Rattle.nor_serprog.specs.declared.fault.Fault.TheVariants.{Read, Write};
ghost use Rattle.nor_reader.specs.Reads.{HasReadOn};
ghost use Rattle.nor_reader.specs.Tables.{CountsTables, HasReadTables, HasSignature, StopsGrowth};
ghost use Rattle.nor_reader.specs.Tables.{StopsTables, headers_end, table_reads, tables_size};
ghost use Rattle.nor_base.specs.Wire.{wire};

use crate::by::ReadBy;
use crate::difference::Mismatch;
use crate::known::table_end;
use crate::pass::{compare_all, read_on};
use crate::told::{Pass, Told};
use nor_base::{ByteIn, ByteOut, Nowhere};
use nor_serprog::Limits;
use std::alloc::{AllocError, Global};

/// The bytes of the header.
const HEADER: usize = 8;

/// What three address bytes reach.
const REACH: usize = 1 << 24;

/// Why a chip's tables aren't read.
#[derive(Clone, Copy, Debug, PartialEq, Eq)]
pub enum TablesFault {
    /// Out of memory.
    Memory,
    /// The first bytes aren't the signature.
    NoSignature,
    /// They didn't come twice alike.
    Unread(Mismatch),
}

impl From<AllocError> for TablesFault {
    ghost from_gives = { λ _ why. why ≡ Memory };

    fn from(_error: AllocError) -> TablesFault {
        TablesFault::Memory
    }
}

/// Has the device read its chip's SFDP tables twice, from address 0 on as far as the headers and
/// the tables that they point at reach, in pieces that it can give. Memory is taken for them.
///
/// `NoSignature` where the first four bytes aren't `SFDP`; `Unread` where they didn't come twice
/// alike; `Memory` where a growth is refused.
pub fn read_tables<R: ByteIn, W: ByteOut>(
    alloc: Global,
    from: &mut R,
    to: &mut W,
    limits: &Limits,
) -> Result<Vec<u8>, TablesFault>
    ensures tables { MatchResult result
        (λ bytes. HasReadTables limits.now.asked (wire (W.held to.old) (R.ahead from.old))
        (wire (W.held to.new) (R.ahead from.new)) bytes.items)
        (StopsTables limits.now.asked (wire (W.held to.old) (R.ahead from.old))
        (wire (W.held to.new) (R.ahead from.new))) }
    ensures counts { CountsTables Read (R.count from.old) (R.count from.new) result
        × CountsTables Write (W.count to.old) (W.count to.new) result }
{
    let mut bytes = Vec::new(alloc);
    if let Err(why) = grow(from, to, limits, &mut bytes, HEADER) {
        return Err(why);
    }
    if !is_signed(bytes.as_slice()) {
        return Err(TablesFault::NoSignature);
    }
    let headers = headers_end(bytes.as_slice());
    if let Err(why) = grow(from, to, limits, &mut bytes, headers) {
        return Err(why);
    }
    let size = tables_size(bytes.as_slice());
    if let Err(why) = grow(from, to, limits, &mut bytes, size) {
        return Err(why);
    }
    let by = ReadBy::Tables;
    let first = limits.asked as usize;
    let mut quiet = Nowhere;
    let mut told = Told::new(Pass::Second, 0, &mut quiet);
    let tables = bytes.as_slice();
    match compare_all(from, to, limits, by, 0, tables, first, &mut told) {
        Ok(()) => Ok(bytes),
        Err(why) => Err(TablesFault::Unread(why)),
    }
}

/// Reads on until there are so many bytes of the tables.
fn grow<R: ByteIn, W: ByteOut>(
    from: &mut R,
    to: &mut W,
    limits: &Limits,
    bytes: &mut Vec<u8>,
    end: usize,
) -> Result<(), TablesFault>
    requires start { length bytes.old.items ≤ end }
    requires end { end ≤ 2 ^ 24 }
    ensures grows { MatchResult result
        (λ _. HasReadOn (table_reads limits.now.asked) (wire (W.held to.old) (R.ahead from.old))
        (wire (W.held to.new) (R.ahead from.new)) bytes.old.items bytes.new.items)
        (StopsGrowth limits.now.asked (wire (W.held to.old) (R.ahead from.old))
        (wire (W.held to.new) (R.ahead from.new)) bytes.old.items) }
    ensures size { IfOk result (λ _. length bytes.new.items ≡ end) }
    ensures counts { CountsTables Read (R.count from.old) (R.count from.new) result
        × CountsTables Write (W.count to.old) (W.count to.new) result }
{
    let start = bytes.len();
    bytes.resize(end, 0)?;
    let mut quiet = Nowhere;
    let mut told = Told::new(Pass::First, 0, &mut quiet);
    match read_on(
        from,
        to,
        limits,
        ReadBy::Tables,
        bytes.as_mut_slice(),
        start,
        &mut told,
    ) {
        Ok(()) => Ok(()),
        Err(why) => Err(TablesFault::Unread(Mismatch::Exchange(why))),
    }
}

/// Whether the first four bytes are the signature.
fn is_signed(header: &[u8]) -> bool
    requires { 4 ≤ length header.now }
    ensures { (result ≡ true) ↔ HasSignature header.now }
{
    header.starts_with(b"SFDP")
}

/// Where the parameter headers end.
fn headers_end(header: &[u8]) -> usize
    requires { 8 ≤ length header.now }
    ensures is { result ≡ headers_end header.now }
    ensures some { 16 ≤ result }
    ensures few { result ≤ 2056 }
{
    8 + 8 * (usize::from(header[6]) + 1)
}

/// Where the tables end that the parameter headers point at, or these, within what three address
/// bytes reach.
fn tables_size(headers: &[u8]) -> usize
    requires { length headers.now ≡ headers_end headers.now }
    ensures is { result ≡ tables_size headers.now }
    ensures some { length headers.now ≤ result }
    ensures few { result ≤ 2 ^ 24 }
{
    let count = usize::from(headers[6]) + 1;
    let mut reach = headers.len();
    for i in 0..count {
        reach = reach.max(table_end(headers, i));
    }
    reach.min(REACH)
}
