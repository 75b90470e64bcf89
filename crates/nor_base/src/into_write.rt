//! Standard writers as devices.

ghost use Rattle.std.specs.Prelude.{◌≡◌, IsErr, MatchResult};
ghost use Rattle.nor_base.specs.Device.{CountsWrite, one_more};

use crate::device::{ByteOut, Failed};
use std::io::{self, Write};

/// A standard writer as a [`ByteOut`]. Any error is a failure, `Interrupted` too, and so is a write
/// of 0 bytes.
#[derive(Drop)]
pub struct IntoWrite<W: Drop> {
    /// The writer.
    pub inner: W,
    /// How often it has failed.
    pub failed: u64,
}

impl<W: Write + Drop> IntoWrite<W> {
    /// The writer as a device that hasn't failed.
    pub fn new(inner: W) -> IntoWrite<W>
        ensures inner { result.inner ≡ inner }
        ensures failed { result.failed ≡ 0 }
    {
        IntoWrite { inner, failed: 0 }
    }

    /// The writer, as the calls so far left it.
    pub fn into_inner(self) -> W
        ensures { result ≡ self.inner }
    {
        self.inner
    }
}

impl<W: Write + Drop> ByteOut for IntoWrite<W> {
    ghost held = { λ s. W.contents s.inner };

    ghost count = { λ s. s.failed };

    fn put(&mut self, bytes: &[u8]) -> Result<usize, Failed> {
        let answer = self.inner.write(bytes);
        counted(answer, &mut self.failed)
    }

    fn failures(&self) -> u64 {
        self.failed
    }
}

/// Any error is a failure, and so is a write of no bytes; each is counted once.
#[tactic(auto, unfolding(crate::specs::Device::one_more))]
fn counted(answer: io::Result<usize>, failed: &mut u64) -> Result<usize, Failed>
    ensures { MatchResult answer (λ taken. CountsWrite failed.old failed.new taken result)
        (λ error. IsErr result × (failed.new ≡ one_more failed.old)) }
{
    match answer {
        Ok(taken) if taken > 0 => Ok(taken),
        _ => {
            *failed = failed.saturating_add(1);
            Err(Failed)
        }
    }
}
