//! A script's steps out of devices that are odd.

use crate::same::{holds, same};
use nor_base::{ByteIn, FromRead, Step};
use nor_script::{ReadFault, ScriptFault, StepReader, StepView, count_steps, read};
use std::alloc::Global;
use std::io;
use std::process::Abort;
use std::test::Fail;

/// Each kind of step once.
const TEXT: &str = "norscript 1\nx 00000110\np 00000101........\nv 01101011--==== 0fa5\nend 3\n";

/// Bytes of its header line, each of which takes a call.
const HEADER: usize = 12;

/// Gives a text one byte at a call, but fails at the call of its number.
#[derive(Drop)]
struct ByteByByte<'a> {
    rest: &'a [u8],
    call: usize,
    fails_at: usize,
}

impl io::Read for ByteByByte<'_> {
    fn read(&mut self, buf: &mut [u8]) -> io::Result<usize> {
        self.call = self.call.saturating_add(1);
        if self.call == self.fails_at {
            return Err(io::ErrorKind::Interrupted.into());
        }
        match (buf.first_mut(), self.rest.split_first()) {
            (Some(place), Some((byte, rest))) => {
                *place = *byte;
                self.rest = rest;
                Ok(1)
            }
            _ => Ok(0),
        }
    }
}

/// Whether a borrowed step is this one.
fn shows(view: StepView<'_>, step: &Step) -> bool {
    match (view, step) {
        (StepView::Send { clocks }, Step::Send { clocks: of }) => clocks == of.as_slice(),
        (StepView::Poll { clocks }, Step::Poll { clocks: of }) => clocks == of.as_slice(),
        (
            StepView::Verify { clocks, expect },
            Step::Verify {
                clocks: of,
                expect: wanted,
            },
        ) => clocks == of.as_slice() && expect == wanted.as_slice(),
        _ => false,
    }
}

/// Goes on over failures to the end: each step is the next of these. Returns how many failures were
/// told.
fn reads_on<R: ByteIn>(
    rt: &impl Abort,
    reader: &mut StepReader,
    source: &mut R,
    steps: &[Step],
) -> usize {
    let mut failures = 0usize;
    let mut next = 0usize;
    for _ in 0..steps.len() + 2 {
        if source.failures() > 1 {
            return failures;
        }
        match reader.advance(source) {
            Ok(true) => {
                holds(rt, "a step of the script", next < steps.len());
                holds(rt, "the next step", shows(reader.view(), &steps[next]));
                next = next.saturating_add(1);
            }
            Ok(false) => {
                same(rt, "steps read", next, steps.len());
                return failures;
            }
            Err(fault) => {
                holds(rt, "a failure", matches!(fault, ReadFault::Device(_)));
                failures = failures.saturating_add(1);
            }
        }
    }
    failures
}

/// A device that gives one byte at a call, and fails at each call in turn: the failure is reported,
/// and reading goes on behind it.
#[test]
fn each_call_fails(rt: HostRuntime) -> Result<(), Fail> {
    let steps = read(rt.alloc(), TEXT.as_bytes())?;
    for fails_at in 0..=TEXT.len() + 2 {
        call_fails(&rt, rt.alloc(), steps.as_slice(), fails_at);
    }
    Ok(())
}

/// The device fails at the call of this number.
fn call_fails(rt: &impl Abort, alloc: Global, steps: &[Step], fails_at: usize) {
    let mut source = FromRead::new(ByteByByte {
        rest: TEXT.as_bytes(),
        call: 0,
        fails_at,
    });
    match StepReader::begin(alloc, &mut source) {
        Ok(mut reader) => {
            let told = reads_on(rt, &mut reader, &mut source, steps);
            let met = fails_at > HEADER && fails_at <= TEXT.len() + 1;
            same(rt, "failures", told, usize::from(met));
        }
        Err(fault) => {
            holds(rt, "begun", matches!(fault, ReadFault::Device(_)));
            holds(rt, "in the header", fails_at >= 1 && fails_at <= HEADER);
        }
    }
}

/// What the reader out of a device says of a text is what `read` says of it.
fn same_answer(rt: &impl Abort, alloc: Global, text: &[u8]) {
    let whole = match read(alloc, text) {
        Ok(steps) => Ok(steps.len() as u64),
        Err(fault) => Err(ReadFault::Script(fault)),
    };
    let mut source = FromRead::new(text);
    same(rt, "the answer", count_steps(alloc, &mut source), whole);
}

/// A text that is cut at each byte, or has another byte at each place.
#[test]
fn cut_and_changed_texts(rt: HostRuntime) -> Result<(), Fail> {
    let alloc = rt.alloc();
    let text = TEXT.as_bytes();
    for at in 0..text.len() {
        same_answer(&rt, alloc, &text[..at]);
        let mut changed = text.to_vec(alloc)?;
        changed[at] = b'\n';
        same_answer(&rt, alloc, changed.as_slice());
        changed[at] = b'q';
        same_answer(&rt, alloc, changed.as_slice());
    }
    same_answer(&rt, alloc, text);
    Ok(())
}

/// A script of one step with so many clocks, and of a write enable behind it.
fn long_script(alloc: Global, clocks: usize) -> Result<Vec<u8>, Fail> {
    let mut text = b"norscript 1\nx ".to_vec(alloc)?;
    text.resize(clocks.saturating_add(14), b'0')?;
    text.extend_from_slice(b"\nx 00000110\nend 2\n")?;
    Ok(text)
}

/// Lines around the buffer's first size, 256 KiB, and its next.
#[test]
fn long_lines(rt: HostRuntime) -> Result<(), Fail> {
    for clocks in [
        131_057, 262_129, 262_130, 262_131, 262_143, 262_144, 600_000,
    ] {
        let text = long_script(rt.alloc(), clocks)?;
        let mut source = FromRead::new(text.as_slice());
        let mut reader = StepReader::begin(rt.alloc(), &mut source)?;
        reads_long(&rt, &mut reader, &mut source, clocks);
    }
    Ok(())
}

/// Reads a send of so many clocks, another step, and the end.
fn reads_long(
    rt: &impl Abort,
    reader: &mut StepReader,
    source: &mut FromRead<&[u8]>,
    clocks: usize,
) {
    holds(rt, "no failure", source.failures() == 0);
    same(rt, "a step", reader.advance(source), Ok(true));
    let found = match reader.view() {
        StepView::Send { clocks } => Some(clocks.len()),
        _ => None,
    };
    same(rt, "its clocks", found, Some(clocks));
    same(rt, "another", reader.advance(source), Ok(true));
    same(rt, "the end", reader.advance(source), Ok(false));
    let none = Err(ReadFault::Script(ScriptFault::NoEnd(4)));
    same(rt, "behind it", reader.advance(source), none);
}
