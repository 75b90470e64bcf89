//! Lines out of a device, in a buffer that is used again.

ghost use Rattle.std.specs.Prelude.{◌≡◌, ◌<◌, ◌≤◌, ◌-◌, ◌+◌, ◌^◌, false, [], length, take, drop};
ghost use Rattle.std.specs.Prelude.{IfOk, OnOk};
ghost use Rattle.std.specs.List.{list_any};
ghost use Rattle.nor_base.specs.Device.{Counts};
ghost use Rattle.nor_script.specs.Faults.{is_line_feed};
ghost use Rattle.nor_script.specs.Stream.{reading, CountsRead};
ghost use Rattle.nor_script.specs.Lines.{FillsPast, FindsLine, IsFirstLine, LooksBehind, Marks};
ghost use Rattle.nor_script.specs.Lines.{Pulls, ReadsHeader, SkipsHeader};

use crate::fault::ReadFault;
use crate::line::place_of;
use nor_base::{ByteIn, Failed};
use std::alloc::{AllocError, Global};
use std::marker::Model;

/// How many bytes the buffer has room for at first.
const PART: usize = 1 << 18;

/// How many bytes `norscript 1` has with its LF.
const HEADER: usize = 12;

/// A buffer of the bytes that came out of a device and are not read yet.
///
/// It has room for at least [`PART`] bytes, and grows to twice its size where a line fills more
/// than half of it.
#[derive(Drop)]
pub(crate) struct LineBuffer {
    buffer: Vec<u8>,
    line: usize,
    end: usize,
    from: usize,
    upto: usize,
}

impl Model for LineBuffer {
    ghost use Rattle.nor_script.specs.Lines.{Lines};

    ghost Value = { Lines };

    ghost use Rattle.std.specs.Prelude.{◌≤◌, ◌-◌, length, slice_range};

    ghost view = { λ s. record {
      held = slice_range s.buffer.items s.from s.upto;
      line = slice_range s.buffer.items s.line s.end;
      room = length s.buffer.items - s.upto;
    } };

    ghost invariant = { λ s. (s.from ≤ s.upto) × (s.upto ≤ length s.buffer.items) × (s.line ≤ s.end)
        × (s.end ≤ length s.buffer.items) };
}

impl LineBuffer {
    /// A buffer of nothing, which takes no memory yet.
    pub(crate) fn new(alloc: Global) -> LineBuffer
        ensures held { result.held ≡ [] }
    {
        LineBuffer {
            buffer: Vec::new(alloc),
            line: 0,
            end: 0,
            from: 0,
            upto: 0,
        }
    }

    /// The line found last, without its LF.
    pub(crate) fn line(&self) -> &[u8]
        ensures { result.now ≡ self.now.line }
    {
        &self.buffer[self.line..self.end]
    }

    /// The bytes that came and are not read yet.
    pub(crate) fn held(&self) -> &[u8]
        ensures { result.now ≡ self.now.held }
    {
        &self.buffer[self.from..self.upto]
    }

    /// Finds the next line, for which it takes as many bytes as it needs. `false` where no LF is
    /// left.
    pub(crate) fn find_line<R: ByteIn>(&mut self, source: &mut R) -> Result<bool, ReadFault>
        ensures lines { FindsLine (reading (R.ahead source.old) self.old.held)
            (reading (R.ahead source.new) self.new.held) self.new result }
        ensures count { CountsRead (R.count source.old) (R.count source.new) result }
    {
        let mut searched = 0;
        while !self.mark_line(searched) {
            searched = self.held().len();
            if self.pull(source)? == 0 {
                return Ok(false);
            }
        }
        Ok(true)
    }

    /// Reads the line found, and its LF; the line stays.
    pub(crate) fn read_line(&mut self)
        requires { length self.old.line < length self.old.held }
        ensures held { self.new.held ≡ drop (length self.old.line + 1) self.old.held }
        ensures line { self.new.line ≡ self.old.line }
    {
        self.from += self.end - self.line + 1;
    }

    /// Reads the header. `false` where the text doesn't begin with it.
    pub(crate) fn read_header<R: ByteIn>(&mut self, source: &mut R) -> Result<bool, ReadFault>
        ensures bytes { ReadsHeader (reading (R.ahead source.old) self.old.held)
            (reading (R.ahead source.new) self.new.held) result }
        ensures count { CountsRead (R.count source.old) (R.count source.new) result }
    {
        while self.held().len() < HEADER {
            if self.pull(source)? == 0 {
                return Ok(false);
            }
        }
        Ok(self.skip_header())
    }

    /// Whether something comes after the line found, which is looked at last.
    pub(crate) fn goes_on<R: ByteIn>(&mut self, source: &mut R) -> Result<bool, ReadFault>
        requires line { IsFirstLine self.old }
        ensures bytes { LooksBehind (reading (R.ahead source.old) self.old.held)
            (reading (R.ahead source.new) self.new.held) self.old.line result }
        ensures count { CountsRead (R.count source.old) (R.count source.new) result }
    {
        if self.held().len() > self.line().len() + 1 {
            return Ok(true);
        }
        if self.pull(source)? == 0 {
            return Ok(false);
        }
        Ok(true)
    }

    /// Reads all bytes held.
    pub(crate) fn read_held(&mut self)
        ensures { self.new.held ≡ [] }
    {
        self.from = self.upto;
    }

    /// Reads the header off the bytes held.
    fn skip_header(&mut self) -> bool
        ensures { SkipsHeader self.old.held self.new.held result }
    {
        let Some(_) = self.held().strip_prefix(b"norscript 1\n") else {
            return false;
        };
        self.from += HEADER;
        true
    }

    /// Finds the next line among the bytes held, the first of which hold no LF.
    fn mark_line(&mut self, searched: usize) -> bool
        requires within { searched ≤ length self.old.held }
        requires none { list_any is_line_feed (take searched self.old.held) ≡ false }
        ensures { Marks self.old self.new result }
    {
        let Some(place) = place_of(b'\n', &self.buffer[self.from + searched..self.upto]) else {
            return false;
        };
        self.line = self.from;
        self.end = self.from + searched + place;
        true
    }

    /// Takes more bytes; 0 is the end.
    pub(crate) fn pull<R: ByteIn>(&mut self, source: &mut R) -> Result<usize, ReadFault>
        ensures bytes { Pulls (reading (R.ahead source.old) self.old.held)
            (reading (R.ahead source.new) self.new.held) result }
        ensures count { CountsRead (R.count source.old) (R.count source.new) result }
        ensures bound { OnOk result (length self.new.held < 2 ^ 63) }
    {
        self.make_room()?;
        self.take(source)
    }

    /// Takes bytes into the room that there is.
    fn take<R: ByteIn>(&mut self, source: &mut R) -> Result<usize, ReadFault>
        requires room { 0 < self.old.room }
        ensures bytes { Pulls (reading (R.ahead source.old) self.old.held)
            (reading (R.ahead source.new) self.new.held) result }
        ensures count { CountsRead (R.count source.old) (R.count source.new) result }
        ensures bound { OnOk result (length self.new.held < 2 ^ 63) }
    {
        let given = fill_past(source, self.buffer.as_mut_slice(), self.upto)?;
        self.upto += given;
        Ok(given)
    }

    /// Sees that there is room behind the bytes held: these move to the front, or the buffer grows
    /// to twice its size.
    fn make_room(&mut self) -> Result<(), AllocError>
        ensures same { self.new.held ≡ self.old.held }
        ensures room { IfOk result (λ _. 0 < self.new.room) }
    {
        let size = self.buffer.len();
        if self.upto < size {
            return Ok(());
        }
        if self.from > size / 2 {
            self.buffer.copy_within(self.from..self.upto, 0);
            self.upto -= self.from;
            self.from = 0;
            self.line = 0;
            self.end = 0;
            return Ok(());
        }
        self.buffer.resize(size.saturating_mul(2).max(PART), 0)
    }
}

/// Takes bytes into a buffer from a place on.
fn fill_past<R: ByteIn>(source: &mut R, buffer: &mut [u8], upto: usize) -> Result<usize, Failed>
    requires upto { upto ≤ length buffer.old }
    ensures bytes { FillsPast (reading (R.ahead source.old) buffer.old)
        (reading (R.ahead source.new) buffer.new) upto result }
    ensures count { Counts (R.count source.old) (R.count source.new) result }
{
    source.take(&mut buffer[upto..])
}
