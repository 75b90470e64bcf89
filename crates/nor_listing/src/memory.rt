//! Lines in memory.

ghost use Rattle.std.specs.Prelude.{◌≡◌, IfOk};
ghost use Rattle.nor_base.specs.Script.{closed, end_line};
ghost use Rattle.nor_listing.specs.Listing.{chip_line, words, mode_past};

use crate::line::put_words;
use crate::writer::{begin, finish};
use nor_base::{ByteOut, Failed, Meaning, Step};
use std::alloc::{AllocError, Global};

/// Bytes in memory; it fails where a growth is refused.
#[derive(Drop)]
struct Held {
    bytes: Vec<u8>,
    refused: u64,
}

impl ByteOut for Held {
    ghost use Rattle.std.specs.Prelude.{Some};

    ghost held = { λ h. Some h.bytes.items };

    ghost count = { λ h. h.refused };

    #[tactic(auto, unfolding(nor_base::specs::Device::one_more))]
    fn put(&mut self, bytes: &[u8]) -> Result<usize, Failed> {
        match self.bytes.extend_from_slice(bytes) {
            Ok(()) => Ok(bytes.len()),
            Err(_) => {
                self.refused = self.refused.saturating_add(1);
                Err(Failed)
            }
        }
    }

    fn failures(&self) -> u64 {
        self.refused
    }
}

/// The first line.
pub(crate) fn first_line(
    alloc: Global,
    meaning: &Meaning,
    mode4: bool,
) -> Result<Vec<u8>, AllocError>
    ensures { IfOk result (λ text. text.items ≡ chip_line meaning.now mode4) }
{
    let mut out = Held {
        bytes: Vec::new(alloc),
        refused: 0,
    };
    match begin(meaning, mode4, &mut out) {
        Ok(()) => Ok(out.bytes),
        Err(_) => Err(AllocError),
    }
}

/// The end line of a number of steps.
pub(crate) fn last_line(alloc: Global, steps: u64) -> Result<Vec<u8>, AllocError>
    ensures { IfOk result (λ text. text.items ≡ end_line steps) }
{
    let mut out = Held {
        bytes: Vec::new(alloc),
        refused: 0,
    };
    match finish(steps, &mut out) {
        Ok(()) => Ok(out.bytes),
        Err(_) => Err(AllocError),
    }
}

/// The words of a step with their LF, and the address mode after it.
pub(crate) fn words_of(
    alloc: Global,
    meaning: &Meaning,
    mode4: bool,
    step: &Step,
) -> Result<(Vec<u8>, bool), AllocError>
    ensures words { IfOk result (λ told. told.0.items ≡ closed (words meaning.now mode4 step.now)) }
    ensures mode { IfOk result (λ told. told.1 ≡ mode_past meaning.now mode4 step.now) }
{
    let mut out = Held {
        bytes: Vec::new(alloc),
        refused: 0,
    };
    match put_words(meaning, mode4, step, &mut out) {
        Ok(after) => Ok((out.bytes, after)),
        Err(_) => Err(AllocError),
    }
}
