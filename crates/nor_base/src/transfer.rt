//! Whole byte strings through devices that move any number of bytes at a call.

ghost use Rattle.std.specs.Prelude.{flat_map};
ghost use Rattle.nor_base.specs.Device.{Writes, Fills, Counts};

use crate::device::{ByteIn, ByteOut, Failed};

/// Puts all of `bytes`, in as many calls as the writer needs; an empty string makes none.
///
/// At `Failed` a proper prefix was taken. It comes only from the writer, whose count of failures
/// rose by one.
pub fn put_all<W: ByteOut>(writer: &mut W, bytes: &[u8]) -> Result<(), Failed>
    ensures bytes { Writes (W.held writer.old) (W.held writer.new) result bytes.now }
    ensures count { Counts (W.count writer.old) (W.count writer.new) result }
{
    let mut done = 0;
    while done < bytes.len() {
        done += writer.put(&bytes[done..])?;
    }
    Ok(())
}

/// Puts all of the parts, one after another.
///
/// At `Failed` a proper prefix of the parts joined was taken. It comes only from the writer, whose
/// count of failures rose by one.
pub fn put_parts<W: ByteOut>(writer: &mut W, parts: &[&[u8]]) -> Result<(), Failed>
    ensures bytes { Writes (W.held writer.old) (W.held writer.new) result
        (flat_map (λ part. part.now) parts.now) }
    ensures count { Counts (W.count writer.old) (W.count writer.new) result }
{
    for part in parts {
        put_all(writer, part)?;
    }
    Ok(())
}

/// Takes bytes until `buffer` is full or the reader ends, and returns how many came. Fewer than the
/// buffer has room for is the end; what stands past them in the buffer says nothing.
///
/// At `Failed` fewer than the buffer has room for came. It comes only from the reader, whose count
/// of failures rose by one.
pub fn fill_from<R: ByteIn>(reader: &mut R, buffer: &mut [u8]) -> Result<usize, Failed>
    ensures bytes { Fills (R.ahead reader.old) (R.ahead reader.new) result buffer.new }
    ensures count { Counts (R.count reader.old) (R.count reader.new) result }
{
    let mut done = 0;
    while done < buffer.len() {
        match reader.take(&mut buffer[done..])? {
            0 => return Ok(done),
            given => done += given,
        }
    }
    Ok(done)
}
