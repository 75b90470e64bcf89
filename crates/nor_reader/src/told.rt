//! How far a reading of a chip has come.

use itoa::Buffer;
use nor_base::{ByteOut, Failed, put_all, put_parts};

/// After so many bytes more it is told again.
const EVERY: usize = 1 << 15;

/// Which reading of a chip.
#[derive(Clone, Copy)]
pub enum Pass {
    /// The first.
    First,
    /// The one that is compared with the first.
    Second,
    /// The one after the work.
    Last,
}

/// How many bytes of a reading came, as one line that is written over again and again. Where that
/// fails nothing changes, and no more is written.
#[derive(Drop)]
pub(crate) struct Told<'a, P> {
    pass: Pass,
    /// All bytes of the reading; nothing is told of one of none.
    size: usize,
    /// As many were told last.
    last: usize,
    /// A line is open.
    open: bool,
    /// None failed.
    works: bool,
    out: &'a mut P,
}

impl<'a, P: ByteOut> Told<'a, P> {
    /// Of a reading of so many bytes nothing came yet.
    pub(crate) fn new(pass: Pass, size: usize, out: &'a mut P) -> Told<'a, P> {
        Told {
            pass,
            size,
            last: 0,
            open: false,
            works: true,
            out,
        }
    }

    /// So many bytes came.
    pub(crate) fn came(&mut self, done: usize) {
        if self.is_due(done) {
            self.works = self.write_line(done).is_ok();
            self.open = true;
            self.last = done;
        }
    }

    /// Closes the line, where one is open.
    pub(crate) fn end(self) {
        let Told {
            pass: _,
            size: _,
            last: _,
            open,
            works,
            out,
        } = self;
        if open && works {
            let _ = put_all(out, b"\n");
        }
    }

    /// Whether a line is due.
    fn is_due(&self, done: usize) -> bool {
        let more = done.saturating_sub(self.last);
        self.works && self.size > 0 && (more >= EVERY || done == self.size)
    }

    /// Writes over the line: `first reading: N of M bytes`.
    fn write_line(&mut self, done: usize) -> Result<(), Failed> {
        let mut came = Buffer::new();
        let mut size = Buffer::new();
        put_parts(
            self.out,
            &[
                name_of(self.pass),
                came.format(done as u64).as_bytes(),
                b" of ",
                size.format(self.size as u64).as_bytes(),
                b" bytes",
            ],
        )
    }
}

/// What a reading is called, from the line's begin on.
fn name_of(pass: Pass) -> &'static [u8] {
    match pass {
        Pass::First => b"\rfirst reading: ",
        Pass::Second => b"\rsecond reading: ",
        Pass::Last => b"\rlast reading: ",
    }
}
