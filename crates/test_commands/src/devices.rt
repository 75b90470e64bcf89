//! Readers and writers that move few bytes at a call, end early or fail, and the work over them.

use nor_base::{ByteIn, ByteOut, FromRead, IntoWrite, Part};
use norprog::{BuildFault, Inputs, Report, Source, build, plan};
use norprog_check::{CheckStop, Verdict, check_script};
use std::alloc::{AllocError, Global};
use std::io;

/// Bytes of an erased chip of 8 KiB, and a few more.
pub(crate) static BLANK: [u8; 8200] = [0xFF; 8200];

/// The call of this number moves as many bytes at most; with `None` it fails. No call has the
/// number 0.
#[derive(Clone, Copy)]
pub(crate) struct OddCall {
    pub(crate) number: usize,
    pub(crate) moves: Option<usize>,
}

impl OddCall {
    /// How many bytes a call moves at most where another one moves `most`.
    fn most(self, call: usize, most: usize) -> io::Result<usize> {
        if call != self.number {
            return Ok(most);
        }
        match self.moves {
            Some(moves) => Ok(moves.min(most)),
            None => Err(io::ErrorKind::Other.into()),
        }
    }
}

/// The call of this number fails.
pub(crate) fn failing(number: usize) -> OddCall {
    OddCall {
        number,
        moves: None,
    }
}

/// A reader that gives so many bytes at a call at most.
#[derive(Drop)]
pub(crate) struct SlowReader<'d> {
    pub(crate) ahead: &'d [u8],
    pub(crate) most: usize,
    pub(crate) call: usize,
    pub(crate) odd: OddCall,
}

impl io::Read for SlowReader<'_> {
    fn read(&mut self, buf: &mut [u8]) -> io::Result<usize> {
        self.call = self.call.saturating_add(1);
        let most = self.odd.most(self.call, self.most)?;
        let count = buf.len().min(self.ahead.len()).min(most);
        buf[..count].copy_from_slice(&self.ahead[..count]);
        self.ahead = &self.ahead[count..];
        Ok(count)
    }
}

/// A writer that takes so many bytes at a call at most. A flush is a call too.
#[derive(Drop)]
pub(crate) struct SlowWriter {
    pub(crate) held: Vec<u8>,
    pub(crate) most: usize,
    pub(crate) call: usize,
    pub(crate) odd: OddCall,
}

impl io::Write for SlowWriter {
    fn write(&mut self, buf: &[u8]) -> io::Result<usize> {
        self.call = self.call.saturating_add(1);
        let most = self.odd.most(self.call, self.most)?;
        let count = buf.len().min(most);
        self.held.extend_from_slice(&buf[..count])?;
        Ok(count)
    }

    fn flush(&mut self) -> io::Result<()> {
        self.call = self.call.saturating_add(1);
        Ok(())
    }
}

/// A reader of a content that fails at the call of this number.
pub(crate) fn content(ahead: &[u8], most: usize, fails_at: usize) -> SlowReader<'_> {
    SlowReader {
        ahead,
        most,
        call: 0,
        odd: failing(fails_at),
    }
}

/// A writer that never fails and holds nothing yet.
pub(crate) fn writer(alloc: Global, most: usize) -> SlowWriter {
    SlowWriter {
        held: Vec::new(alloc),
        most,
        call: 0,
        odd: failing(0),
    }
}

/// The same with memory for `room` bytes.
pub(crate) fn roomy_writer(
    alloc: Global,
    room: usize,
    most: usize,
) -> Result<SlowWriter, AllocError> {
    Ok(SlowWriter {
        held: Vec::with_capacity(alloc, room)?,
        most,
        call: 0,
        odd: failing(0),
    })
}

/// The inputs of an image for a uniform chip of 8 KiB.
pub(crate) fn inputs(hex: &str) -> Inputs<'_> {
    Inputs {
        hex: hex.as_bytes(),
        image: None,
        layout: None,
        regions: &[],
        chip: Source::Uniform(8192),
        part: Part::Generic,
        status: None,
        mode4: false,
        quad: false,
        base: 0,
        verify: false,
        erased_only: false,
        page: None,
    }
}

/// What some work answered, its devices after it, and how often each of them failed.
#[derive(Drop)]
pub(crate) struct Done<'d, T: Drop> {
    pub(crate) answer: T,
    pub(crate) reader: SlowReader<'d>,
    pub(crate) read_failures: u64,
    pub(crate) writer: SlowWriter,
    pub(crate) write_failures: u64,
}

/// What a build or a plan answered.
pub(crate) type Built<'d> = Done<'d, Result<Report, BuildFault>>;

/// An answer, and the devices after it.
pub(crate) fn with_devices<'d, T: Drop>(
    answer: T,
    reader: FromRead<SlowReader<'d>>,
    writer: IntoWrite<SlowWriter>,
) -> Done<'d, T> {
    let read_failures = reader.failures();
    let write_failures = writer.failures();
    Done {
        answer,
        reader: reader.into_inner(),
        read_failures,
        writer: writer.into_inner(),
        write_failures,
    }
}

/// What is done over devices.
#[derive(Clone, Copy)]
pub(crate) enum Work {
    Build,
    Plan,
}

/// Builds or plans over these devices, for a content of so many bytes.
pub(crate) fn run_work<'d>(
    alloc: Global,
    work: Work,
    inputs: &Inputs<'_>,
    reader: SlowReader<'d>,
    len: u64,
    writer: SlowWriter,
) -> Built<'d> {
    let mut reader = FromRead::new(reader);
    let mut writer = IntoWrite::new(writer);
    let answer = match work {
        Work::Build => build(alloc, inputs, &mut reader, len, &mut writer),
        Work::Plan => plan(alloc, inputs, &mut reader, len, &mut writer),
    };
    with_devices(answer, reader, writer)
}

/// Checks a script over this reader, for a content of so many bytes. Nothing is written.
pub(crate) fn run_check<'d>(
    alloc: Global,
    inputs: &Inputs<'_>,
    script: &str,
    reader: SlowReader<'d>,
    len: u64,
) -> Done<'d, Result<Verdict, CheckStop>> {
    let mut reader = FromRead::new(reader);
    let answer = check_script(alloc, inputs, script.as_bytes(), &mut reader, len).map(
        |found| found.verdict,
    );
    with_devices(answer, reader, IntoWrite::new(writer(alloc, 0)))
}
