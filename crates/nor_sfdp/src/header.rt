//! The SFDP header and the parameter headers.

ghost use Rattle.std.specs.Prelude.{◌≡◌, ◌+◌, ◌*◌, ◌≤◌, ◌<◌, length, IfOk};
ghost use Rattle.nor_sfdp.specs.Headers.{header_count_of, header_at, headers_of, newest, is_signed};
ghost use Rattle.nor_sfdp.specs.Headers.{newer, is_header_of};

use crate::fault::SfdpFault;

/// A parameter header: which table it is for, in which revision, and where that stands.
#[derive(Clone, Copy)]
pub(crate) struct Header {
    /// The table's ID.
    pub id: u16,
    /// The table's minor revision.
    pub minor: u8,
    /// The table's major revision.
    pub major: u8,
    /// The table's length in DWORDs.
    pub dwords: u8,
    /// The table's first byte.
    pub address: u32,
}

impl Header {
    /// Whether the table is that of an ID, in major revision 1.
    fn is_of(&self, id: u16) -> bool
        ensures { result ≡ is_header_of id self.now }
    {
        self.id == id && self.major == 1
    }
}

/// The number of parameter headers, all of which lie within the bytes.
#[tactic(auto, unfolding(crate::specs::Headers::header_count_of))]
pub(crate) fn header_count(bytes: &[u8]) -> Result<usize, SfdpFault>
    ensures count { result ≡ header_count_of bytes.now }
    ensures within { IfOk result (λ count. 8 + 8 * count ≤ length bytes.now) }
{
    if bytes.len() < 4 || !is_signed(bytes) {
        return Err(SfdpFault::Signature);
    }
    if bytes.len() < 8 || bytes.len() < 8 + 8 * (usize::from(bytes[6]) + 1) {
        return Err(SfdpFault::Truncated);
    }
    if bytes[5] != 1 {
        return Err(SfdpFault::Major);
    }
    Ok(usize::from(bytes[6]) + 1)
}

/// Whether the bytes begin with `SFDP`.
fn is_signed(bytes: &[u8]) -> bool
    ensures { result ≡ is_signed bytes.now }
{
    bytes.starts_with(b"SFDP")
}

/// The parameter header with an index, which counts from 0.
#[tactic(auto, unfolding(crate::specs::Headers::header_at))]
fn header_at(bytes: &[u8], i: usize) -> Header
    requires { 16 + 8 * i ≤ length bytes.now }
    ensures { result ≡ header_at bytes.now i }
{
    let at = 8 + 8 * i;
    Header {
        id: u16::from(bytes[at]) + 256 * u16::from(bytes[at + 7]),
        minor: bytes[at + 1],
        major: bytes[at + 2],
        dwords: bytes[at + 3],
        address: u32::from(bytes[at + 4])
            + 256 * u32::from(bytes[at + 5])
            + 65536 * u32::from(bytes[at + 6]),
    }
}

/// The header taken for an ID: of those of major revision 1 the first with the greatest minor
/// revision.
pub(crate) fn newest(bytes: &[u8], count: usize, id: u16) -> Option<Header>
    requires { 8 + 8 * count ≤ length bytes.now }
    ensures { result ≡ newest id (headers_of bytes.now count) }
{
    let mut taken: Option<Header> = None;
    for i in 0..count {
        let header = header_at(bytes, i);
        if header.is_of(id) {
            taken = Some(newer(taken, header));
        }
    }
    taken
}

/// The later of two headers where its minor revision is greater.
fn newer(earlier: Option<Header>, later: Header) -> Header
    ensures { result ≡ newer earlier later }
{
    match earlier {
        Some(header) if header.minor >= later.minor => header,
        _ => later,
    }
}
