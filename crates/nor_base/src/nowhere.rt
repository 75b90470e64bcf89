//! An output for what nobody asked for.

use crate::device::{ByteOut, Failed};

/// Takes each byte and keeps none.
#[derive(Drop)]
pub struct Nowhere;

impl ByteOut for Nowhere {
    ghost use Rattle.std.specs.Prelude.{None};

    ghost held = { λ _. None };

    ghost count = { λ _. 0 };

    fn put(&mut self, bytes: &[u8]) -> Result<usize, Failed> {
        Ok(bytes.len())
    }

    fn failures(&self) -> u64 {
        0
    }
}
