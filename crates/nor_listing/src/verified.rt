//! The words of clocks that are to read the bytes expected.

ghost use Rattle.std.specs.Prelude.{◌≤◌, ◌++◌, if◌then◌else◌, None, length};
ghost use Rattle.nor_base.specs.Device.{Writes, Counts};
ghost use Rattle.nor_base.specs.Decoding.{decode, instruction, opcode};
ghost use Rattle.nor_base.specs.Run.{is_verify};
ghost use Rattle.nor_base.specs.Script.{closed, hex_pair, step_line};
ghost use Rattle.nor_base.specs.declared.step.Step.TheVariants.{Verify};
ghost use Rattle.nor_decode.specs.Seen.{transaction_of};
ghost use Rattle.nor_listing.specs.Listing.{in_eight, counted, spelled, read_words, verify_words};

use crate::sent::{opcode, put_place};
use nor_base::{ByteOut, Failed, Meaning, What, put_all};
use nor_decode::{Seen, decode, is_verify};
use nor_script::{put_hexadecimal, write_verify};

/// Puts what a chip sees in clocks that are to read these bytes.
pub(crate) fn put_verified<W: ByteOut>(
    meaning: &Meaning,
    mode4: bool,
    clocks: &[u8],
    expect: &[u8],
    out: &mut W,
) -> Result<(), Failed>
    ensures bytes { Writes (W.held out.old) (W.held out.new) result
        (closed (verify_words clocks.now expect.now
        (if is_verify clocks.now then decode meaning.now mode4 clocks.now else None))) }
    ensures count { Counts (W.count out.old) (W.count out.new) result }
{
    if !is_verify(clocks) {
        return put_line(b"unknown ", clocks, expect, out);
    }
    match decode(clocks, meaning, mode4) {
        Some(seen) => put_seen(clocks, expect, &seen, out),
        None => put_line(b"unknown ", clocks, expect, out),
    }
}

/// Puts a word and the script's line of clocks that are to read these bytes.
fn put_line<W: ByteOut>(
    word: &[u8],
    clocks: &[u8],
    expect: &[u8],
    out: &mut W,
) -> Result<(), Failed>
    ensures bytes { Writes (W.held out.old) (W.held out.new) result
        (closed (word.now ++ step_line (Verify clocks.now expect.now))) }
    ensures count { Counts (W.count out.old) (W.count out.new) result }
{
    put_all(out, word)?;
    write_verify(clocks, expect, out)
}

/// Puts the words of clocks in which a chip sees this.
fn put_seen<W: ByteOut>(
    clocks: &[u8],
    expect: &[u8],
    seen: &Seen<'_>,
    out: &mut W,
) -> Result<(), Failed>
    requires opcode { 8 ≤ length clocks.now }
    ensures bytes { Writes (W.held out.old) (W.held out.new) result
        (closed (read_words clocks.now expect.now (instruction (transaction_of seen.now))
        seen.now.what)) }
    ensures count { Counts (W.count out.old) (W.count out.new) result }
{
    let op = opcode(clocks);
    match seen.what {
        What::Read => put_read(b"verify ", op, seen.address, seen.count(), expect, out),
        What::QuadRead => put_read(b"quadverify ", op, seen.address, seen.count(), expect, out),
        What::Broken => put_line(b"broken ", clocks, expect, out),
        _ => put_line(b"unknown ", clocks, expect, out),
    }
}

/// Puts a read of so many bytes, and those that are expected.
fn put_read<W: ByteOut>(
    word: &[u8],
    op: u8,
    address: u32,
    count: usize,
    expect: &[u8],
    out: &mut W,
) -> Result<(), Failed>
    ensures bytes { Writes (W.held out.old) (W.held out.new) result
        (closed (word.now ++ (hex_pair op
        ++ (in_eight address ++ (counted count ++ spelled expect.now))))) }
    ensures count { Counts (W.count out.old) (W.count out.new) result }
{
    put_place(word, op, address, count, b" ", out)?;
    put_hexadecimal(expect, out)?;
    put_all(out, b"\n")
}
