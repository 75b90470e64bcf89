//! The writer of scripts.

ghost use Rattle.std.specs.Prelude.{◌≡◌, true};
ghost use Rattle.nor_base.specs.Device.{Writes, Counts};
ghost use Rattle.nor_base.specs.Step.{is_step};
ghost use Rattle.nor_base.specs.declared.step.Step.TheVariants.{Send, Poll, Verify};
ghost use Rattle.nor_base.specs.Script.{header, closed, step_line, end_line};

use crate::hexadecimal::put_hexadecimal;
use itoa::Buffer;
use nor_base::{ByteOut, Failed, Step, put_all, put_parts};

/// Writes the header line.
///
/// At `Failed` a proper prefix of it was taken; it comes only from the writer, whose count of
/// failures rose by one.
pub fn begin<W: ByteOut>(writer: &mut W) -> Result<(), Failed>
    ensures bytes { Writes (W.held writer.old) (W.held writer.new) result header }
    ensures count { Counts (W.count writer.old) (W.count writer.new) result }
{
    put_all(writer, b"norscript 1\n")
}

/// Writes the line of a step that a script may have ([`nor_base::is_step`]): `x CLOCKS`, `p CLOCKS`
/// or `v CLOCKS HEX`.
///
/// At `Failed` a proper prefix of it was taken; it comes only from the writer, whose count of
/// failures rose by one.
pub fn write_step<W: ByteOut>(step: &Step, writer: &mut W) -> Result<(), Failed>
    requires step { is_step step.now ≡ true }
    ensures bytes { Writes (W.held writer.old) (W.held writer.new) result
        (closed (step_line step.now)) }
    ensures count { Counts (W.count writer.old) (W.count writer.new) result }
{
    match step {
        Step::Send { clocks } => write_send(clocks.as_slice(), writer),
        Step::Poll { clocks } => write_poll(clocks.as_slice(), writer),
        Step::Verify { clocks, expect } => {
            write_verify(clocks.as_slice(), expect.as_slice(), writer)
        }
    }
}

/// Writes the line of clocks that are sent: `x CLOCKS`. They are some symbols.
///
/// At `Failed` a proper prefix of it was taken; it comes only from the writer, whose count of
/// failures rose by one.
pub fn write_send<W: ByteOut>(clocks: &[u8], writer: &mut W) -> Result<(), Failed>
    ensures bytes { Writes (W.held writer.old) (W.held writer.new) result
        (closed (step_line (Send clocks.now))) }
    ensures count { Counts (W.count writer.old) (W.count writer.new) result }
{
    put_parts(writer, &[b"x ", clocks, b"\n"])
}

/// Writes the line of clocks that are sent until the chip is idle: `p CLOCKS`. They are some
/// symbols.
///
/// At `Failed` a proper prefix of it was taken; it comes only from the writer, whose count of
/// failures rose by one.
pub fn write_poll<W: ByteOut>(clocks: &[u8], writer: &mut W) -> Result<(), Failed>
    ensures bytes { Writes (W.held writer.old) (W.held writer.new) result
        (closed (step_line (Poll clocks.now))) }
    ensures count { Counts (W.count writer.old) (W.count writer.new) result }
{
    put_parts(writer, &[b"p ", clocks, b"\n"])
}

/// Writes the line of clocks that read, and of the bytes that they are to read: `v CLOCKS HEX`.
/// They are some symbols, and some bytes.
///
/// At `Failed` a proper prefix of it was taken; it comes only from the writer, whose count of
/// failures rose by one.
pub fn write_verify<W: ByteOut>(clocks: &[u8], expect: &[u8], writer: &mut W) -> Result<(), Failed>
    ensures bytes { Writes (W.held writer.old) (W.held writer.new) result
        (closed (step_line (Verify clocks.now expect.now))) }
    ensures count { Counts (W.count writer.old) (W.count writer.new) result }
{
    put_parts(writer, &[b"v ", clocks, b" "])?;
    put_hexadecimal(expect, writer)?;
    put_all(writer, b"\n")
}

/// Writes the end line with the number of steps.
///
/// At `Failed` a proper prefix of it was taken; it comes only from the writer, whose count of
/// failures rose by one.
pub fn finish<W: ByteOut>(steps: u64, writer: &mut W) -> Result<(), Failed>
    ensures bytes { Writes (W.held writer.old) (W.held writer.new) result (end_line steps) }
    ensures count { Counts (W.count writer.old) (W.count writer.new) result }
{
    let mut digits = Buffer::new();
    put_parts(writer, &[b"end ", digits.format(steps).as_bytes(), b"\n"])
}
