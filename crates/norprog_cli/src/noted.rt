//! A device of which what goes out is kept too.

ghost use Rattle.std.specs.Prelude.{◌≡◌};

use nor_base::{ByteOut, Failed};
use std::alloc::Global;

/// A device, and what went out to it, where that is to be kept.
#[derive(Drop)]
pub(crate) struct Noted<W: Drop> {
    /// The device.
    pub out: W,
    /// What went out; none where it isn't to be kept, or there is no memory for it.
    kept: Option<Vec<u8>>,
}

impl<W: ByteOut + Drop> Noted<W> {
    /// A device to which nothing went out yet.
    pub fn new(alloc: Global, out: W, keeps: bool) -> Noted<W>
        ensures { result.out ≡ out }
    {
        let kept = if keeps { Some(Vec::new(alloc)) } else { None };
        Noted { out, kept }
    }

    /// What went out, if it was kept.
    pub fn text(&self) -> Option<&[u8]> {
        match &self.kept {
            Some(text) => Some(text.as_slice()),
            None => None,
        }
    }

    /// Keeps these bytes too.
    fn keep(&mut self, bytes: &[u8])
        ensures { self.new.out ≡ self.old.out }
    {
        let lost = match &mut self.kept {
            Some(text) => text.extend_from_slice(bytes).is_err(),
            None => false,
        };
        if lost {
            self.kept = None;
        }
    }
}

impl<W: ByteOut + Drop> ByteOut for Noted<W> {
    ghost held = { λ s. W.held s.out };

    ghost count = { λ s. W.count s.out };

    fn put(&mut self, bytes: &[u8]) -> Result<usize, Failed> {
        let taken = self.out.put(bytes)?;
        self.keep(&bytes[..taken]);
        Ok(taken)
    }

    fn failures(&self) -> u64 {
        self.out.failures()
    }
}
