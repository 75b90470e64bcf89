//! Standard readers as devices.

ghost use Rattle.std.specs.Prelude.{◌≡◌, IsErr, MatchResult};
ghost use Rattle.nor_base.specs.Device.{one_more};

use crate::device::{ByteIn, Failed};
use std::io::{self, Read};

/// A standard reader as a [`ByteIn`]. Any error is a failure, `Interrupted` too.
#[derive(Drop)]
pub struct FromRead<R: Drop> {
    /// The reader.
    pub inner: R,
    /// How often it has failed.
    pub failed: u64,
}

impl<R: Read + Drop> FromRead<R> {
    /// The reader as a device that hasn't failed.
    pub fn new(inner: R) -> FromRead<R>
        ensures inner { result.inner ≡ inner }
        ensures failed { result.failed ≡ 0 }
    {
        FromRead { inner, failed: 0 }
    }

    /// The reader, as the calls so far left it.
    pub fn into_inner(self) -> R
        ensures { result ≡ self.inner }
    {
        self.inner
    }
}

impl<R: Read + Drop> ByteIn for FromRead<R> {
    ghost use Rattle.nor_base.specs.Device.{ahead_of};

    ghost ahead = { λ s. ahead_of (R.remaining s.inner) };

    ghost count = { λ s. s.failed };

    fn take(&mut self, out: &mut [u8]) -> Result<usize, Failed> {
        let answer = self.inner.read(out);
        counted(answer, &mut self.failed)
    }

    fn failures(&self) -> u64 {
        self.failed
    }
}

/// Any error is a failure, and is counted once.
#[tactic(auto, unfolding(crate::specs::Device::one_more))]
fn counted(answer: io::Result<usize>, failed: &mut u64) -> Result<usize, Failed>
    ensures { MatchResult answer (λ given. (result ≡ Ok given) × (failed.new ≡ failed.old))
        (λ error. IsErr result × (failed.new ≡ one_more failed.old)) }
{
    match answer {
        Ok(given) => Ok(given),
        Err(_) => {
            *failed = failed.saturating_add(1);
            Err(Failed)
        }
    }
}
