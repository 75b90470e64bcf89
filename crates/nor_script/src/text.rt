//! A text in memory as a device.

ghost use Rattle.std.specs.Prelude.{◌≡◌};

use nor_base::{ByteIn, Failed};

/// A text in memory as a device, which never fails.
#[derive(Drop)]
pub struct TextIn<'a> {
    /// What wasn't taken yet.
    pub rest: &'a [u8],
}

impl<'a> TextIn<'a> {
    /// A device that has the whole text ahead.
    pub fn new(text: &'a [u8]) -> TextIn<'a>
        ensures { result.rest.now ≡ text.now }
    {
        TextIn { rest: text }
    }
}

impl<'a> ByteIn for TextIn<'a> {
    ghost use Rattle.nor_base.specs.Device.{Finite};

    ghost ahead = { λ s. Finite s.rest.now };

    ghost count = { λ _. 0 };

    fn take(&mut self, out: &mut [u8]) -> Result<usize, Failed> {
        let count = self.rest.len().min(out.len());
        let (front, rest) = self.rest.split_at(count);
        out[..count].copy_from_slice(front);
        self.rest = rest;
        Ok(count)
    }

    fn failures(&self) -> u64 {
        0
    }
}
