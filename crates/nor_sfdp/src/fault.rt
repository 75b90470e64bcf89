//! Why SFDP bytes are refused.

use thiserror::Error;

/// Why SFDP bytes give no meaning that is accepted. The first cause in the order of looking is
/// reported, which isn't that of the numbers.
#[derive(Clone, Copy, Debug, PartialEq, Eq, Error)]
pub enum SfdpFault {
    /// 1: the bytes don't begin with `SFDP`.
    #[error("the bytes do not begin with SFDP")]
    Signature,
    /// 2: the header, a parameter header or a table that is read ends past the bytes.
    #[error("the bytes end too early")]
    Truncated,
    /// 3: there is no basic table FF00h of major revision 1.
    #[error("there is no basic table")]
    NoBasic,
    /// 4: the header's major revision isn't 1.
    #[error("the major revision is not 1")]
    Major,
    /// 5: FF00h has fewer than nine DWORDs, or FF84h fewer than two.
    #[error("a table is too short")]
    ShortTable,
    /// 6: the size isn't a whole number of bytes, is 0, isn't a multiple of 4096, or is over 256
    /// MiB (of a uniform chip, over 16 MiB).
    #[error("the size is not one that is accepted")]
    Density,
    /// 7: the number of address bytes is the reserved one.
    #[error("the number of address bytes is reserved")]
    AddressBytes,
    /// 8: the page isn't from 16 to 4096 bytes, or nothing tells that it is 64 bytes or larger.
    #[error("the page size is not one that is accepted")]
    PageSize,
    /// 9: an erase kind isn't from 256 bytes to 16 MiB, or is smaller than the page.
    #[error("the size of an erase kind is not one that is accepted")]
    EraseSize,
    /// 10: a descriptor of the sector map ends past the table, a command follows a map, or there
    /// are more than eight commands.
    #[error("the sector map is malformed")]
    MapForm,
    /// 11: the configuration bits aren't as many `0` and `1` as the sector map has commands.
    #[error("the configuration bits do not fit the sector map")]
    ConfigBits,
    /// 12: no map of the sector map has the ID that the configuration bits give.
    #[error("no map has the wanted ID")]
    NoMap,
    /// 13: the regions of the map don't add up to the size.
    #[error("the regions do not add up to the size")]
    MapSize,
    /// 14: an opcode of an erase kind that some region allows is that of another instruction, or of
    /// another such kind.
    #[error("an opcode stands for two instructions")]
    Opcode,
}
