//! Readers and writers that fail.

use std::alloc::Global;
use std::io;

/// A reader and writer that moves one byte at a call, and fails at the call of its number.
#[derive(Drop)]
pub(crate) struct OneByOne {
    pub(crate) held: Vec<u8>,
    pub(crate) call: usize,
    pub(crate) fails_at: usize,
}

impl OneByOne {
    /// One that fails at the call of this number.
    pub(crate) fn new(alloc: Global, fails_at: usize) -> OneByOne {
        OneByOne {
            held: Vec::new(alloc),
            call: 0,
            fails_at,
        }
    }
}

impl io::Read for OneByOne {
    fn read(&mut self, buf: &mut [u8]) -> io::Result<usize> {
        self.call = self.call.saturating_add(1);
        if self.call == self.fails_at {
            return Err(io::ErrorKind::Interrupted.into());
        }
        match buf.first_mut() {
            Some(byte) => {
                *byte = 0x5A;
                Ok(1)
            }
            None => Ok(0),
        }
    }
}

impl io::Write for OneByOne {
    fn write(&mut self, buf: &[u8]) -> io::Result<usize> {
        self.call = self.call.saturating_add(1);
        if self.call == self.fails_at {
            return Err(io::ErrorKind::Interrupted.into());
        }
        match buf.first() {
            Some(byte) => {
                self.held.push(*byte)?;
                Ok(1)
            }
            None => Ok(0),
        }
    }

    fn flush(&mut self) -> io::Result<()> {
        Ok(())
    }
}

/// A writer that takes nothing.
#[derive(Drop)]
pub(crate) struct Full;

impl io::Write for Full {
    fn write(&mut self, _buf: &[u8]) -> io::Result<usize> {
        Ok(0)
    }

    fn flush(&mut self) -> io::Result<()> {
        Ok(())
    }
}
