//! Which bytes of a chip are new.

ghost use Rattle.std.specs.Prelude.{◌≡◌};
ghost use Rattle.nor_map.specs.Cells.{is_new};

use nor_hex::Image;
use nor_layout::Chosen;
use std::marker::Model;

/// What a chip is to hold: the image's byte at `base + a` at each chosen address a.
#[derive(Drop)]
pub struct Wanted<'a> {
    image: &'a Image,
    base: u32,
    chosen: &'a Chosen,
}

impl<'a> Model for Wanted<'a> {
    ghost use Rattle.nor_map.specs.Cells.{Wanted};

    ghost Value = { Wanted };

    ghost view = { λ w. record {
      image = w.image.now;
      base = w.base;
      chosen = w.chosen.now;
    } };
}

impl<'a> Wanted<'a> {
    /// Of an image, whose byte at `base` chip address 0 takes, the bytes at these addresses.
    pub fn new(image: &'a Image, base: u32, chosen: &'a Chosen) -> Wanted<'a>
        ensures { result ≡ record { image = image.now; base = base; chosen = chosen.now } }
    {
        Wanted {
            image,
            base,
            chosen,
        }
    }

    /// Whether an address has such a byte.
    pub(crate) fn has(&self, address: u64) -> bool
        ensures { result ≡ is_new self.now address }
    {
        let Ok(address) = u32::try_from(address) else {
            return false;
        };
        let Some(at) = self.base.checked_add(address) else {
            return false;
        };
        self.chosen.has(address) && self.image.at(at).is_some()
    }
}
