//! Requests, each of which goes out in one write where it has room on the stack.

ghost use Rattle.std.specs.Bool.{OnTrue};
ghost use Rattle.std.specs.Prelude.{◌≡◌, ◌≤◌, ◌<◌, ◌+◌, ◌^◌, ◌++◌, length, flat_map};
ghost use Rattle.std.specs.Prelude.{min, slice_index, slice_range, IfSome};
ghost use Rattle.nor_base.specs.Decoding.{bytes_of_bits};
ghost use Rattle.nor_base.specs.Device.{Counts, Writes};
ghost use Rattle.nor_serprog.specs.Follow.{most_bytes, most_reads, status_requests};
ghost use Rattle.nor_serprog.specs.Protocol.{request};

use crate::operation::head;
use arrayvec::ArrayVec;
use nor_base::{ByteOut, Failed, What, put_all, put_parts};
use nor_decode::Seen;

/// Most bytes of the requests that go out in one write.
pub(crate) const MOST_BYTES: usize = 1024;

/// Requests that go out together.
pub(crate) type Requests = ArrayVec<u8, MOST_BYTES>;

/// Most status reads that go out at once.
const MOST_READS: u64 = 4;

/// The request of a status read.
const STATUS: [u8; 8] = [0x13, 1, 0, 0, 1, 0, 0, 0x05];

/// Puts a command, in parts: in one write where they have room together.
pub(crate) fn put_command<W: ByteOut>(to: &mut W, parts: &[&[u8]]) -> Result<(), Failed>
    ensures bytes { Writes (W.held to.old) (W.held to.new) result
        (flat_map (λ part. part.now) parts.now) }
    ensures count { Counts (W.count to.old) (W.count to.new) result }
{
    match joined(parts) {
        Some(command) => put_all(to, command.as_slice()),
        None => put_parts(to, parts),
    }
}

/// The parts one after the other, where they have room.
fn joined(parts: &[&[u8]]) -> Option<Requests>
    ensures { IfSome result (λ command. command.items ≡ flat_map (λ part. part.now) parts.now) }
{
    let mut command = Requests::new();
    for part in parts {
        if command.try_extend_from_slice(part).is_err() {
            return None;
        }
    }
    Some(command)
}

/// Puts the request of an operation that sends the bytes of these clocks: in one write where it has
/// room.
pub(crate) fn put_request<W: ByteOut>(to: &mut W, bits: &[u8], asked: u32) -> Result<(), Failed>
    requires sent { length (bytes_of_bits bits.now) < 2 ^ 24 }
    requires asked { asked < 2 ^ 24 }
    ensures bytes { Writes (W.held to.old) (W.held to.new) result
        (request (bytes_of_bits bits.now) asked) }
    ensures count { Counts (W.count to.old) (W.count to.new) result }
{
    let mut requests = Requests::new();
    if add_request(&mut requests, bits, asked) {
        return put_all(to, requests.as_slice());
    }
    put_all(to, &head(count_sent(bits) as u32, asked))?;
    put_sent(to, bits)
}

/// Adds the request of an operation that sends the bytes of these clocks, where it has room;
/// whether it had.
pub(crate) fn add_request(requests: &mut Requests, bits: &[u8], asked: u32) -> bool
    requires sent { length (bytes_of_bits bits.now) < 2 ^ 24 }
    requires asked { asked < 2 ^ 24 }
    ensures { OnTrue result (requests.new.items
        ≡ requests.old.items ++ request (bytes_of_bits bits.now) asked) }
{
    let head = head(count_sent(bits) as u32, asked);
    requests.try_extend_from_slice(&head).is_ok() && add_sent(requests, bits)
}

/// Adds the bytes that clocks send, where they have room; whether they had.
fn add_sent(requests: &mut Requests, bits: &[u8]) -> bool
    ensures { OnTrue result (requests.new.items ≡ requests.old.items ++ bytes_of_bits bits.now) }
{
    for place in 0..count_sent(bits) {
        if requests.try_push(byte_sent(bits, place)).is_err() {
            return false;
        }
    }
    true
}

/// Adds status reads: at most four, no more than these turns, and as many as fit so many bytes with
/// what is there. How many.
pub(crate) fn add_reads(requests: &mut Requests, ahead: u16, turns: u64) -> u64
    ensures added { requests.new.items ≡ requests.old.items ++ status_requests result }
    ensures few { result ≤ most_reads }
    ensures within { result ≤ turns }
    ensures fits { length requests.old.items ≤ min ahead most_bytes
        → length requests.new.items ≤ min ahead most_bytes }
    ensures some { 0 < turns → length requests.old.items + 8 ≤ min ahead most_bytes → 0 < result }
{
    let mut reads = 0;
    for _ in 0..turns.min(MOST_READS) {
        let full = requests.len() + STATUS.len() > usize::from(ahead);
        if full || requests.try_extend_from_slice(&STATUS).is_err() {
            break;
        }
        reads += 1;
    }
    reads
}

/// Puts the bytes that clocks send, some hundred at a time.
fn put_sent<W: ByteOut>(to: &mut W, bits: &[u8]) -> Result<(), Failed>
    ensures bytes { Writes (W.held to.old) (W.held to.new) result (bytes_of_bits bits.now) }
    ensures count { Counts (W.count to.old) (W.count to.new) result }
{
    let count = count_sent(bits);
    let mut piece = [0; 256];
    let mut done = 0;
    while done < count {
        let room = (count - done).min(256);
        let part = &mut piece[..room];
        copy_sent(bits, done, part);
        put_all(to, part)?;
        done += room;
    }
    Ok(())
}

/// The bytes that clocks send, from a place on.
fn copy_sent(bits: &[u8], from: usize, part: &mut [u8])
    requires { from + length part.old ≤ length (bytes_of_bits bits.now) }
    ensures { part.new ≡ slice_range (bytes_of_bits bits.now) from (from + length part.old) }
{
    for (place, byte) in part.iter_mut().enumerate() {
        *byte = byte_sent(bits, from + place);
    }
}

/// How many bytes clocks send.
#[tactic(auto, using(crate::proofs::CarriedLemmas::length_of_bytes))]
pub(crate) fn count_sent(bits: &[u8]) -> usize
    ensures { result ≡ length (bytes_of_bits bits.now) }
{
    bits.len() / 8
}

/// A byte that clocks send, by its place.
fn byte_sent(bits: &[u8], place: usize) -> u8
    requires { place < length (bytes_of_bits bits.now) }
    ensures { result ≡ slice_index (bytes_of_bits bits.now) place }
{
    // what a device sends for it a program on one lane has as its data
    let program = Seen {
        what: What::Program,
        address: 0,
        body: bits,
    };
    program.byte(place)
}
