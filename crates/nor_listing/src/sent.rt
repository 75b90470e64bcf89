//! The words of clocks that are sent.

ghost use Rattle.std.specs.Prelude.{◌≡◌, ◌<◌, ◌≤◌, ◌+◌, ◌^◌, ◌++◌, true, codes, length, take};
ghost use Rattle.std.specs.Prelude.{drop, flat_map, IfOk};
ghost use Rattle.nor_base.specs.Device.{Writes, Counts};
ghost use Rattle.nor_base.specs.Decoding.{decode, instruction, opcode};
ghost use Rattle.nor_base.specs.Effect.{is_program};
ghost use Rattle.nor_base.specs.Script.{closed, hex_pair, step_line};
ghost use Rattle.nor_base.specs.Spelling.{mode_after};
ghost use Rattle.nor_base.specs.declared.step.Step.TheVariants.{Send};
ghost use Rattle.nor_base.specs.Spelling.{mode_by};
ghost use Rattle.nor_decode.specs.Seen.{transaction_of};
ghost use Rattle.nor_listing.specs.Listing.{in_eight, counted, spelled, sent_words, send_words};

use itoa::Buffer;
use nor_base::{ByteOut, Failed, Meaning, What, put_all, put_parts};
use nor_decode::{Seen, decode};
use nor_script::{hex_number, hex_pair, put_hexadecimal};

/// How many bytes of a program are decoded at a time.
const PART: usize = 128;

/// Puts what a chip sees in clocks that are sent, and returns the address mode after them.
pub(crate) fn put_sent<W: ByteOut>(
    meaning: &Meaning,
    mode4: bool,
    clocks: &[u8],
    out: &mut W,
) -> Result<bool, Failed>
    ensures bytes { Writes (W.held out.old) (W.held out.new) result
        (closed (send_words meaning.now clocks.now (decode meaning.now mode4 clocks.now))) }
    ensures mode { IfOk result (λ after. after
        ≡ mode_by mode4 (decode meaning.now mode4 clocks.now)) }
    ensures count { Counts (W.count out.old) (W.count out.new) result }
{
    match decode(clocks, meaning, mode4) {
        Some(seen) => {
            put_seen(meaning, clocks, &seen, out)?;
            Ok(mode_after(seen.what, mode4))
        }
        None => {
            put_line(b"unknown ", clocks, out)?;
            Ok(mode4)
        }
    }
}

/// Puts a word and the script's line of clocks that are sent.
#[tactic(auto, unfolding(nor_base::specs::Script::step_line))]
fn put_line<W: ByteOut>(word: &[u8], clocks: &[u8], out: &mut W) -> Result<(), Failed>
    ensures bytes { Writes (W.held out.old) (W.held out.new) result
        (closed (word.now ++ step_line (Send clocks.now))) }
    ensures count { Counts (W.count out.old) (W.count out.new) result }
{
    put_parts(out, &[word, b"x ", clocks, b"\n"])
}

/// The address mode after an instruction: `Enter` and `Leave` switch it.
fn mode_after(what: What, mode4: bool) -> bool
    ensures { result ≡ mode_after what mode4 }
{
    match what {
        What::Enter => true,
        What::Leave => false,
        _ => mode4,
    }
}

/// Puts the words of clocks in which a chip sees this.
fn put_seen<W: ByteOut>(
    meaning: &Meaning,
    clocks: &[u8],
    seen: &Seen<'_>,
    out: &mut W,
) -> Result<(), Failed>
    requires opcode { 8 ≤ length clocks.now }
    ensures bytes { Writes (W.held out.old) (W.held out.new) result
        (closed (sent_words meaning.now clocks.now (instruction (transaction_of seen.now))
        seen.now.what)) }
    ensures count { Counts (W.count out.old) (W.count out.new) result }
{
    let op = opcode(clocks);
    match seen.what {
        What::Enable => put_plain(b"enable ", op, out),
        What::Disable => put_plain(b"disable ", op, out),
        What::Enter => put_plain(b"enter ", op, out),
        What::Leave => put_plain(b"leave ", op, out),
        What::Status => put_status(op, seen.count(), out),
        What::Erase(kind) => put_erase(op, seen.address, meaning.block_size(kind), out),
        What::Program => put_program(b"program ", op, seen, out),
        What::QuadProgram => put_program(b"quadprogram ", op, seen, out),
        What::Read => put_place(b"read ", op, seen.address, seen.count(), b"\n", out),
        What::QuadRead => put_place(b"quadread ", op, seen.address, seen.count(), b"\n", out),
        What::Broken => put_line(b"broken ", clocks, out),
    }
}

/// The opcode of clocks: the byte that a program would send by its eight.
pub(crate) fn opcode(clocks: &[u8]) -> u8
    requires { 8 ≤ length clocks.now }
    ensures { result ≡ opcode clocks.now }
{
    let eight = Seen {
        what: What::Program,
        address: 0,
        body: &clocks[..8],
    };
    eight.byte(0)
}

/// Puts a word and an opcode.
fn put_plain<W: ByteOut>(word: &[u8], op: u8, out: &mut W) -> Result<(), Failed>
    ensures bytes { Writes (W.held out.old) (W.held out.new) result
        (closed (word.now ++ hex_pair op)) }
    ensures count { Counts (W.count out.old) (W.count out.new) result }
{
    put_parts(out, &[word, &hex_pair(op), b"\n"])
}

/// Puts a status read of so many bytes.
fn put_status<W: ByteOut>(op: u8, count: usize, out: &mut W) -> Result<(), Failed>
    ensures bytes { Writes (W.held out.old) (W.held out.new) result
        (closed (codes "status " ++ (hex_pair op ++ counted count))) }
    ensures count { Counts (W.count out.old) (W.count out.new) result }
{
    let mut digits = Buffer::new();
    let count = digits.format(count).as_bytes();
    put_parts(out, &[b"status ", &hex_pair(op), b" ", count, b"\n"])
}

/// Puts an erase: address and size of its block.
fn put_erase<W: ByteOut>(op: u8, address: u32, size: u32, out: &mut W) -> Result<(), Failed>
    ensures bytes { Writes (W.held out.old) (W.held out.new) result
        (closed (codes "erase " ++ (hex_pair op ++ (in_eight address ++ in_eight size)))) }
    ensures count { Counts (W.count out.old) (W.count out.new) result }
{
    put_parts(
        out,
        &[
            b"erase ",
            &hex_pair(op),
            b" ",
            &hex_number(address),
            b" ",
            &hex_number(size),
            b"\n",
        ],
    )
}

/// Puts a program and its bytes.
fn put_program<W: ByteOut>(word: &[u8], op: u8, seen: &Seen<'_>, out: &mut W) -> Result<(), Failed>
    requires program { is_program seen.now.what ≡ true }
    ensures bytes { Writes (W.held out.old) (W.held out.new) result
        (closed (word.now ++ (hex_pair op ++ (in_eight seen.now.address
        ++ (counted (length (instruction (transaction_of seen.now)).sent)
        ++ spelled (instruction (transaction_of seen.now)).sent))))) }
    ensures count { Counts (W.count out.old) (W.count out.new) result }
{
    put_place(word, op, seen.address, count_sent(seen), b" ", out)?;
    put_bytes(seen, out)?;
    put_all(out, b"\n")
}

/// Puts a word, an opcode, an address and a number of bytes, and what ends them.
pub(crate) fn put_place<W: ByteOut>(
    word: &[u8],
    op: u8,
    address: u32,
    count: usize,
    end: &[u8],
    out: &mut W,
) -> Result<(), Failed>
    ensures bytes { Writes (W.held out.old) (W.held out.new) result
        (word.now ++ (hex_pair op ++ (in_eight address ++ (counted count ++ end.now)))) }
    ensures count { Counts (W.count out.old) (W.count out.new) result }
{
    let mut digits = Buffer::new();
    let count = digits.format(count).as_bytes();
    put_parts(
        out,
        &[
            word,
            &hex_pair(op),
            b" ",
            &hex_number(address),
            b" ",
            count,
            end,
        ],
    )
}

/// Puts the digits of the bytes that a program sends.
fn put_bytes<W: ByteOut>(seen: &Seen<'_>, out: &mut W) -> Result<(), Failed>
    requires program { is_program seen.now.what ≡ true }
    ensures bytes { Writes (W.held out.old) (W.held out.new) result
        (flat_map hex_pair (instruction (transaction_of seen.now)).sent) }
    ensures count { Counts (W.count out.old) (W.count out.new) result }
{
    let len = count_sent(seen);
    let mut done = 0;
    while done < len {
        let count = (len - done).min(PART);
        put_some(seen, done, count, out)?;
        done += count;
    }
    Ok(())
}

/// How many bytes a program sends.
fn count_sent(seen: &Seen<'_>) -> usize
    requires { is_program seen.now.what ≡ true }
    ensures { result ≡ length (instruction (transaction_of seen.now)).sent }
{
    seen.count()
}

/// Puts the digits of so many of the bytes that a program sends, at most [`PART`], from one on.
fn put_some<W: ByteOut>(
    seen: &Seen<'_>,
    from: usize,
    count: usize,
    out: &mut W,
) -> Result<(), Failed>
    requires few { count ≤ 128 }
    requires inside { from + count ≤ length (instruction (transaction_of seen.now)).sent }
    requires fits { from + count < 2 ^ 64 }
    ensures bytes { Writes (W.held out.old) (W.held out.new) result
        (flat_map hex_pair (take count (drop from (instruction (transaction_of seen.now)).sent))) }
    ensures count { Counts (W.count out.old) (W.count out.new) result }
{
    let mut bytes = [0; PART];
    let bytes = &mut bytes[..count];
    fill(seen, from, bytes);
    put_hexadecimal(bytes, out)
}

/// Fills a buffer with the bytes that a program sends from one on.
fn fill(seen: &Seen<'_>, from: usize, bytes: &mut [u8])
    requires inside { from + length bytes.old
        ≤ length (instruction (transaction_of seen.now)).sent }
    requires fits { from + length bytes.old < 2 ^ 64 }
    ensures { bytes.new ≡ take (length bytes.old)
        (drop from (instruction (transaction_of seen.now)).sent) }
{
    for (i, byte) in bytes.iter_mut().enumerate() {
        *byte = seen.byte(from + i);
    }
}
