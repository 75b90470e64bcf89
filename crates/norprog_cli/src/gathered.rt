//! A device whose bytes are gathered before they go out.

ghost use Rattle.std.specs.Prelude.{◌≡◌, ◌<◌, ◌≤◌, ◌-◌, ◌++◌, [], drop, length, min};
ghost use Rattle.std.specs.Prelude.{take, IfOk};
ghost use Rattle.std.specs.Io.KnownBytes.{Appends, Keeps, append_known};
ghost use Rattle.nor_base.specs.Device.{Counts};

use arrayvec::ArrayVec;
use nor_base::{ByteOut, Failed};

/// As many bytes are gathered.
const ROOM: usize = 8192;

/// A device, and the bytes that have yet to go out to it. It holds both.
#[derive(Drop)]
pub(crate) struct Gathered<W: Drop> {
    /// The device.
    pub out: W,
    /// What has yet to go out.
    pub left: ArrayVec<u8, ROOM>,
}

impl<W: ByteOut + Drop> Gathered<W> {
    /// A device to which nothing has yet to go out.
    pub fn new(out: W) -> Gathered<W>
        ensures out { result.out ≡ out }
        ensures left { result.left.items ≡ [] }
    {
        Gathered {
            out,
            left: ArrayVec::new(),
        }
    }

    /// Has all go out. At `Failed`, which comes only from the device, what it didn't take is left.
    pub fn send(&mut self) -> Result<(), Failed>
        ensures kept { Keeps (append_known (W.held self.old.out) self.old.left.items)
            (append_known (W.held self.new.out) self.new.left.items) }
        ensures whole { IfOk result (λ _. self.new.left.items ≡ []) }
        ensures count { Counts (W.count self.old.out) (W.count self.new.out) result }
    {
        let (sent, result) = put_front(self.left.as_slice(), &mut self.out);
        let rest = rest_of(self.left.as_slice(), sent);
        self.left = rest;
        result
    }

    /// Has all go out where there is no room for more.
    fn make_room(&mut self) -> Result<(), Failed>
        ensures kept { Keeps (append_known (W.held self.old.out) self.old.left.items)
            (append_known (W.held self.new.out) self.new.left.items) }
        ensures room { IfOk result (λ _. length self.new.left.items < 8192) }
        ensures count { Counts (W.count self.old.out) (W.count self.new.out) result }
    {
        if self.left.is_full() {
            self.send()
        } else {
            Ok(())
        }
    }
}

impl<W: ByteOut + Drop> ByteOut for Gathered<W> {
    ghost held = { λ s. append_known (W.held s.out) s.left.items };

    ghost count = { λ s. W.count s.out };

    fn put(&mut self, bytes: &[u8]) -> Result<usize, Failed> {
        self.make_room()?;
        Ok(gather(&mut self.left, bytes))
    }

    fn failures(&self) -> u64 {
        self.out.failures()
    }
}

/// Puts as many of some bytes at the end of others as there is room for, and returns how many.
fn gather(left: &mut ArrayVec<u8, ROOM>, bytes: &[u8]) -> usize
    ensures taken { result ≡ min (length bytes.now) (8192 - length left.old.items) }
    ensures items { left.new.items ≡ left.old.items ++ take result bytes.now }
{
    let taken = bytes.len().min(left.remaining_capacity());
    let _ = left.try_extend_from_slice(&bytes[..taken]);
    taken
}

/// Puts bytes until all are taken or the device fails, and returns how many it took.
fn put_front<W: ByteOut>(bytes: &[u8], out: &mut W) -> (usize, Result<(), Failed>)
    ensures few { result.0 ≤ length bytes.now }
    ensures bytes { Appends (W.held out.old) (W.held out.new) (take result.0 bytes.now) }
    ensures whole { IfOk result.1 (λ _. result.0 ≡ length bytes.now) }
    ensures count { Counts (W.count out.old) (W.count out.new) result.1 }
{
    let mut done = 0;
    while done < bytes.len() {
        match out.put(&bytes[done..]) {
            Ok(taken) => done += taken,
            Err(failed) => return (done, Err(failed)),
        }
    }
    (done, Ok(()))
}

/// Bytes without so many at their front.
fn rest_of(bytes: &[u8], sent: usize) -> ArrayVec<u8, ROOM>
    requires few { sent ≤ length bytes.now }
    requires fit { length bytes.now ≤ 8192 }
    ensures { result.items ≡ drop sent bytes.now }
{
    let mut rest = ArrayVec::new();
    let _ = rest.try_extend_from_slice(&bytes[sent..]);
    rest
}
