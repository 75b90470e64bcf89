//! What a build is asked for.

ghost use Rattle.std.specs.Prelude.{◌≡◌};
ghost use Rattle.nor_job.specs.Task.{contradiction, has_no_tables};

use nor_base::{Bytes, Part};
use nor_target::Image;
use std::marker::Model;

/// Where the meaning of a chip comes from.
#[derive(Clone, Copy)]
pub enum Source<'a> {
    /// The chip's SFDP bytes (JESD216B), and the configuration bits of its sector map.
    Sfdp {
        /// From address 0 of the SFDP space on.
        bytes: &'a [u8],
        /// `0` or `1` for each detection command of the sector map, the first first.
        bits: &'a str,
    },
    /// No SFDP: a chip of this many bytes with 4 KiB sectors ([`nor_base::Meaning::uniform`]).
    Uniform(u32),
    /// No SFDP: the text of a sheet ([`nor_sheet::read`]).
    Sheet(&'a [u8]),
}

/// What a build is asked for.
#[derive(Drop)]
pub struct Inputs<'a> {
    /// The image, as Intel HEX text.
    pub hex: &'a [u8],
    /// An image in place of that text, which isn't looked at then.
    pub image: Option<&'a Image>,
    /// The layout's text, if there is one.
    pub layout: Option<&'a [u8]>,
    /// The names of the chosen regions; with none the whole chip is chosen.
    pub regions: &'a [Bytes],
    /// The chip.
    pub chip: Source<'a>,
    /// The chip's family.
    pub part: Part,
    /// The chip's status bits S23 to S0, if they were read; bits from 24 on have no effect.
    pub status: Option<u32>,
    /// The chip is in four-byte address mode.
    pub mode4: bool,
    /// The chip's quad enable bit is set.
    pub quad: bool,
    /// Chip address 0 takes the image's byte at this address.
    pub base: u32,
    /// Each byte that was written is read after it.
    pub verify: bool,
    /// Bytes are programmed only where they are FFh.
    pub erased_only: bool,
    /// Bytes of the chip's page, where its meaning only says the least that they may be.
    pub page: Option<u32>,
}

impl<'a> Model for Inputs<'a> {
    ghost use Rattle.nor_job.specs.Task.{Task, task_of};

    ghost Value = { Task };

    ghost view = { task_of };
}

/// The first contradiction of the inputs, by its number: 1 regions are named without a layout; 2 a
/// status with part Generic; 3 a status together with `mode4` or `quad`; 4 a chip that isn't said
/// by its SFDP, of part W25q256jv.
#[tactic(auto, unfolding(crate::specs::Task::contradiction))]
pub fn contradiction(inputs: &Inputs<'_>) -> Option<u8>
    ensures { result ≡ contradiction inputs.now }
{
    if inputs.layout.is_none() && !inputs.regions.is_empty() {
        return Some(1);
    }
    if inputs.status.is_some() && inputs.part == Part::Generic {
        return Some(2);
    }
    if inputs.status.is_some() && (inputs.mode4 || inputs.quad) {
        return Some(3);
    }
    if has_no_tables(inputs) && inputs.part == Part::W25q256jv {
        return Some(4);
    }
    None
}

/// The chip isn't said by its SFDP.
fn has_no_tables(inputs: &Inputs<'_>) -> bool
    ensures { result ≡ has_no_tables inputs.now.chip }
{
    match inputs.chip {
        Source::Uniform(_) | Source::Sheet(_) => true,
        Source::Sfdp { .. } => false,
    }
}
