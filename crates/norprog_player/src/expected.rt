//! What the chip behind a device has to be.

ghost use Rattle.std.specs.Prelude.{◌≡◌, ◌≤◌, ◌^◌, length};
ghost use Rattle.norprog_player.specs.Tables.{tables_of};

use nor_base::{Part, Start};
use nor_job::{Inputs, Source};
use nor_reader::tables_reach;

/// The most bytes of SFDP tables: an SFDP address has 24 bits.
const MOST_TABLES: usize = 1 << 24;

/// What the chip behind a device has to be.
#[derive(Clone, Copy)]
pub struct Expected<'a> {
    /// Its family, which says what its status registers mean.
    pub part: Part,
    /// How it begins.
    pub start: Start,
    /// The SFDP bytes that it has to have, from address 0 on; none where it is only known by its
    /// size or a sheet.
    pub tables: &'a [u8],
    /// Nothing is asked of it before the steps, and nothing is read back after them.
    pub trusted: bool,
    ghost few: { length tables.now ≤ 2 ^ 24 },
}

/// The SFDP bytes of the inputs as far as their headers reach; none of a uniform chip or a sheet.
pub fn known_tables<'a>(inputs: &Inputs<'a>) -> &'a [u8]
    ensures tables { result.now ≡ tables_of inputs.now.chip }
    ensures few { length result.now ≤ 2 ^ 24 }
{
    match inputs.chip {
        Source::Sfdp { bytes, bits: _ } => &bytes[..tables_reach(bytes).min(MOST_TABLES)],
        Source::Uniform(_) | Source::Sheet(_) => &[],
    }
}
