//! A named region, whose name stands in the text.

use std::marker::Model;

/// The addresses from `start` to `end`, both included, under a name.
#[derive(Drop)]
pub struct Region<'a> {
    /// Its first address.
    pub start: u32,
    /// Its last address.
    pub end: u32,
    /// Its name, of any bytes.
    pub name: &'a [u8],
}

impl<'a> Model for Region<'a> {
    ghost use Rattle.nor_layout.specs.Region.{Region};

    ghost Value = { Region };

    ghost view = { λ r. record { start = r.start; end = r.end; name = r.name.now } };
}
