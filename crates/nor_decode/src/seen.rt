//! A transaction as a chip sees it.

ghost use Rattle.std.specs.Prelude.{◌≡◌, ◌+◌, ◌/◌, ◌<◌, length, slice_index};
ghost use Rattle.nor_base.specs.Decoding.{bytes_of_bits, bytes_of_nibbles, instruction};
ghost use Rattle.nor_decode.specs.Seen.{transaction_of};

use crate::clocks::{byte, level};
use nor_base::What;

/// A transaction: a row of the instruction table, or a known opcode in another form than its row's.
#[derive(Clone, Copy)]
pub struct Seen<'a> {
    /// The instruction.
    pub what: What,
    /// The address that it names: 0 where it names none, and for `Broken`.
    pub address: u32,
    /// Its data clocks: empty where it has none, and for `Broken`.
    pub body: &'a [u8],
}

impl<'a> Seen<'a> {
    /// The number of data bytes sent or sampled: eight clocks for a byte on one lane, two on four.
    pub fn count(&self) -> usize
        ensures { result ≡ length (instruction (transaction_of self.now)).sent
            + (instruction (transaction_of self.now)).asked }
    {
        match self.what {
            What::Program | What::Status | What::Read => self.body.len() / 8,
            What::QuadProgram | What::QuadRead => self.body.len() / 2,
            _ => 0,
        }
    }

    /// The data byte `i` of a program, below its count: on one lane the first of its eight bits is
    /// the highest, on four the first of its two nibbles.
    pub fn byte(&self, i: usize) -> u8
        requires { i < length (instruction (transaction_of self.now)).sent }
        ensures { result ≡ slice_index (instruction (transaction_of self.now)).sent i }
    {
        match self.what {
            What::Program => byte_of_bits(self.body, i),
            What::QuadProgram => byte_of_nibbles(self.body, i),
            _ => unreachable!(),
        }
    }
}

/// The byte `i` that bits send, eight clocks for a byte.
fn byte_of_bits(clocks: &[u8], i: usize) -> u8
    requires { i < length clocks.now / 8 }
    ensures { result ≡ slice_index (bytes_of_bits clocks.now) i }
{
    byte(&clocks[8 * i..8 * i + 8])
}

/// The byte `i` that nibbles send, two clocks for a byte, the high nibble first.
fn byte_of_nibbles(clocks: &[u8], i: usize) -> u8
    requires { i < length clocks.now / 2 }
    ensures { result ≡ slice_index (bytes_of_nibbles clocks.now) i }
{
    16 * level(clocks[2 * i]) + level(clocks[2 * i + 1])
}
