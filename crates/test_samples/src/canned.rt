//! Devices in memory.

ghost use Rattle.std.specs.Prelude.{◌≡◌, []};

use std::alloc::Global;
use std::io;

/// How a device ends.
#[derive(Clone, Copy)]
pub enum End {
    /// It is silent.
    Silent,
    /// It fails.
    Fails,
}

/// A device that gives these bytes, one at a call, after some calls that it is silent at, and then
/// ends.
#[derive(Drop)]
pub struct Canned<'a> {
    /// What it has still to give.
    pub answers: &'a [u8],
    /// At how many calls it is silent before that.
    pub silent: u32,
    /// How it ends.
    pub end: End,
}

impl<'a> io::Read for Canned<'a> {
    fn read(&mut self, buf: &mut [u8]) -> io::Result<usize> {
        if self.silent > 0 {
            self.silent -= 1;
            return Ok(0);
        }
        match (buf.first_mut(), self.answers.split_first()) {
            (None, _) => Ok(0),
            (Some(byte), Some((next, rest))) => {
                *byte = *next;
                self.answers = rest;
                Ok(1)
            }
            (Some(_), None) if self.end == End::Fails => Err(io::ErrorKind::TimedOut.into()),
            (Some(_), None) => Ok(0),
        }
    }
}

/// A device that takes so many bytes, one at a call, and then fails.
#[derive(Drop)]
pub struct Held {
    /// What it took.
    pub bytes: Vec<u8>,
    /// How many bytes it takes in all.
    pub room: usize,
}

impl Held {
    /// One that has taken nothing yet, and takes so many bytes.
    pub fn new(alloc: Global, room: usize) -> Held
        ensures bytes { result.bytes.items ≡ [] }
        ensures room { result.room ≡ room }
    {
        Held {
            bytes: Vec::new(alloc),
            room,
        }
    }
}

impl io::Write for Held {
    fn write(&mut self, buf: &[u8]) -> io::Result<usize> {
        match buf.first() {
            Some(byte) if self.bytes.len() < self.room => {
                self.bytes.push(*byte)?;
                Ok(1)
            }
            Some(_) => Err(io::ErrorKind::TimedOut.into()),
            None => Ok(0),
        }
    }

    fn flush(&mut self) -> io::Result<()> {
        Ok(())
    }
}
