//! A writer that keeps the last line that went through it.

ghost use Rattle.std.specs.Prelude.{◌≡◌};

use arrayvec::ArrayVec;
use nor_base::{ByteOut, Failed};

/// As many bytes of a line are kept.
const ROOM: usize = 128;

/// A line, or as much of it as there is so far.
#[derive(Drop)]
struct Line {
    /// Its first bytes, without its LF.
    bytes: ArrayVec<u8, ROOM>,
    /// Whether its LF came.
    closed: bool,
}

impl Line {
    /// Takes the next byte of a text: after an LF it begins another line.
    fn take(&mut self, byte: u8) {
        if self.closed {
            self.bytes.clear();
        }
        self.closed = byte == b'\n';
        if !self.closed {
            let _ = self.bytes.try_push(byte);
        }
    }
}

/// A writer, and the last line that was written.
#[derive(Drop)]
pub struct Heard<E: Drop> {
    /// The writer.
    pub out: E,
    /// It is a terminal, so that a refusal explains itself.
    pub terminal: bool,
    line: Line,
}

impl<E: ByteOut + Drop> Heard<E> {
    /// A writer through which nothing went yet.
    pub fn new(out: E, terminal: bool) -> Heard<E>
        ensures { result.out ≡ out }
    {
        let line = Line {
            bytes: ArrayVec::new(),
            closed: true,
        };
        Heard {
            out,
            terminal,
            line,
        }
    }

    /// A copy of the last line that was written, without its LF; of a longer one its first 128
    /// bytes.
    pub fn last_line(&self) -> ArrayVec<u8, ROOM> {
        let mut line = ArrayVec::new();
        let _ = line.try_extend_from_slice(self.line.bytes.as_slice());
        line
    }
}

impl<E: ByteOut + Drop> ByteOut for Heard<E> {
    ghost held = { λ s. E.held s.out };

    ghost count = { λ s. E.count s.out };

    fn put(&mut self, bytes: &[u8]) -> Result<usize, Failed> {
        let taken = self.out.put(bytes)?;
        for byte in &bytes[..taken] {
            self.line.take(*byte);
        }
        Ok(taken)
    }

    fn failures(&self) -> u64 {
        self.out.failures()
    }
}
