//! A block.

use std::marker::Model;

/// So many bytes from an address on, which an erase of a kind takes at once.
#[derive(Clone, Copy, Default)]
pub struct Block {
    /// The address of its first byte.
    pub start: u32,
    /// Bytes.
    pub size: u32,
    /// The number of its erase kind, from 1 to 4.
    pub kind: u8,
}

impl Model for Block {
    ghost use Rattle.nor_base.specs.Blocks.{Block};

    ghost Value = { Block };

    ghost use Rattle.nor_geometry.specs.View.{block_of, fields_of};

    ghost view = { block_of };

    ghost inverse = { fields_of };
}
