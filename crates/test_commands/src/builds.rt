//! Builds, and checks of their scripts, over devices that move few bytes at a call, end early or
//! fail; and builds with little memory.

use crate::devices::{
    BLANK, Built, OddCall, SlowReader, Work, content, failing, inputs, roomy_writer, run_check,
    run_work, writer,
};
use crate::same::{holds, same};
use nor_base::{Bytes, Strategy};
use norprog::{BuildFault, Inputs, Report};
use norprog_check::{CheckStop, Verdict};
use std::alloc::{AllocError, Global};
use std::process::Abort;
use std::test::Fail;
use test_samples::texts::{IMAGE, ONE_BYTE};

/// The report of the job of one byte.
pub(crate) const ONE_PROGRAM: Report = Report {
    strategy: Strategy::S2,
    steps: 3,
    erases: 0,
    erased: 0,
    programs: 1,
    ignored: 0,
};

/// A script, whole and with its report where the build answers Ok, and cut at a fault. Returns the
/// fault.
fn fault_beside_script(
    rt: &impl Abort,
    built: &Built<'_>,
    text: &str,
    want: Report,
) -> Option<BuildFault> {
    let held = built.writer.held.as_slice();
    match built.answer {
        Ok(report) => {
            holds(rt, "the whole script", held == text.as_bytes());
            holds(rt, "its report", report == want);
            None
        }
        Err(fault) => {
            let cut = text.as_bytes().starts_with(held) && held.len() < text.len();
            holds(rt, "a script that is cut", cut);
            Some(fault)
        }
    }
}

/// The names of the regions to build: one.
pub(crate) fn one_name(alloc: Global) -> Result<Vec<Bytes>, AllocError> {
    let mut names = Vec::new(alloc);
    names.push(Bytes::new(Vec::from_slice(alloc, b"a")?))?;
    Ok(names)
}

/// Builds the script of one byte by a layout. Returns the fault; the script is whole without one,
/// and cut at one.
///
/// `AllocError` where its own memory is refused.
fn one_byte_job(rt: &impl Abort, alloc: Global) -> Result<Option<BuildFault>, AllocError> {
    let names = one_name(alloc)?;
    let inputs = Inputs {
        layout: Some(b"0:fff a"),
        regions: names.as_slice(),
        ..inputs(IMAGE)
    };
    let script = roomy_writer(alloc, 128, 128)?;
    let built = run_work(
        alloc,
        Work::Build,
        &inputs,
        content(&BLANK, 8192, 0),
        8192,
        script,
    );
    same(
        rt,
        "failures",
        (built.read_failures, built.write_failures),
        (0, 0),
    );
    Ok(fault_beside_script(rt, &built, ONE_BYTE, ONE_PROGRAM))
}

/// Memory is not wanting, so each growth is granted and the whole script is there.
#[test]
fn writes_the_one_byte_job(rt: HostRuntime) -> Result<(), Fail> {
    same(&rt, "bytes of the script", ONE_BYTE.len(), 91);
    same(&rt, "no fault", one_byte_job(&rt, rt.alloc())?, None);
    Ok(())
}

/// `tools/refused-growths` runs it with each growth refused in turn, its own ones too.
#[test]
fn a_refused_growth_is_memory(rt: HostRuntime) {
    if let Ok(Some(fault)) = one_byte_job(&rt, rt.alloc()) {
        same(&rt, "refused", fault, BuildFault::Memory);
    }
}

/// How many bytes a reader has, all FFh, how many it gives at a call, and the call at which it
/// fails.
type Reading = (usize, usize, usize);

/// Readers for the job of one byte, and the fault of a build and of a check over them.
static READINGS: [(&str, Reading, Option<BuildFault>); 16] = [
    ("whole", (8192, 8192, 0), None),
    ("a byte at a call", (8192, 1, 0), None),
    ("more than whole", (8200, 1000, 0), None),
    // it ends too early
    ("none", (0, 8192, 0), Some(BuildFault::ContentShort)),
    ("100", (100, 8192, 0), Some(BuildFault::ContentShort)),
    ("a window", (4096, 8192, 0), Some(BuildFault::ContentShort)),
    ("one less", (8191, 1, 0), Some(BuildFault::ContentShort)),
    // it fails
    ("call 1", (8192, 8192, 1), Some(BuildFault::Read)),
    ("call 2", (8192, 4096, 2), Some(BuildFault::Read)),
    ("byte 1", (8192, 1, 1), Some(BuildFault::Read)),
    ("byte 2", (8192, 1, 2), Some(BuildFault::Read)),
    ("byte 4097", (8192, 1, 4097), Some(BuildFault::Read)),
    ("byte 8192", (8192, 1, 8192), Some(BuildFault::Read)),
    ("byte 8193", (8192, 1, 8193), None),
    ("call 2 of 100", (100, 8192, 2), Some(BuildFault::Read)),
    (
        "call 3 of 100",
        (100, 8192, 3),
        Some(BuildFault::ContentShort),
    ),
];

#[test]
fn a_reader_gives_what_it_likes(rt: HostRuntime) {
    for (label, (has, most, fails_at), want) in &READINGS {
        let given = BLANK.get(..*has).unwrap_or(&[]);
        let reader = content(given, *most, *fails_at);
        builds_over(&rt, rt.alloc(), label, reader, *want);
        let reader = content(given, *most, *fails_at);
        checks_over(&rt, rt.alloc(), label, reader, *want);
    }
}

/// The build over a reader answers so, and has read no byte past the content.
fn builds_over(
    rt: &impl Abort,
    alloc: Global,
    label: &str,
    reader: SlowReader<'_>,
    want: Option<BuildFault>,
) {
    let most = reader.ahead.len().saturating_sub(8192);
    let script = writer(alloc, 128);
    let built = run_work(alloc, Work::Build, &inputs(IMAGE), reader, 8192, script);
    same(
        rt,
        label,
        fault_beside_script(rt, &built, ONE_BYTE, ONE_PROGRAM),
        want,
    );
    let failures = (built.read_failures, built.write_failures);
    same(rt, label, failures, (reads_failed(want), 0));
    let left = built.reader.ahead.len();
    holds(rt, label, want.is_some() || left == most);
}

/// The check of its script over a reader answers so too.
fn checks_over(
    rt: &impl Abort,
    alloc: Global,
    label: &str,
    reader: SlowReader<'_>,
    want: Option<BuildFault>,
) {
    let most = reader.ahead.len().saturating_sub(8192);
    let checked = run_check(alloc, &inputs(IMAGE), ONE_BYTE, reader, 8192);
    let said = match want {
        None => Ok(Verdict::Yes),
        Some(fault) => Err(CheckStop::Build(fault)),
    };
    holds(rt, label, checked.answer == said);
    same(rt, label, checked.read_failures, reads_failed(want));
    let left = checked.reader.ahead.len();
    holds(rt, label, want.is_some() || left == most);
}

/// How often a reader fails at this fault.
fn reads_failed(fault: Option<BuildFault>) -> u64 {
    u64::from(fault == Some(BuildFault::Read))
}

/// A job, its script, and its report.
struct Job {
    image: &'static str,
    verify: bool,
    /// What the chip holds at 0 and at 5; elsewhere it holds FFh.
    holds: (u8, u8),
    text: &'static str,
    report: Report,
}

static JOBS: [Job; 3] = [
    Job {
        image: IMAGE,
        verify: false,
        holds: (0xFF, 0xFF),
        text: ONE_BYTE,
        report: ONE_PROGRAM,
    },
    // a bit has to rise: its sector is erased, and a byte beside it is restored
    Job {
        image: ":0100000001FE\n:00000001FF\n",
        verify: false,
        holds: (0, 0xA5),
        text: "norscript 1\nx 00000110\nx 00100000000000000000000000000000\np 00000101........\n\
            x 00000110\n\
            x 00000010000000000000000000000000000000011111111111111111111111111111111110100101\n\
            p 00000101........\nend 6\n",
        report: Report {
            steps: 6,
            erases: 1,
            erased: 4096,
            ..ONE_PROGRAM
        },
    },
    // what was written is read
    Job {
        image: IMAGE,
        verify: true,
        holds: (0xFF, 0xFF),
        text: "norscript 1\nx 00000110\nx 0000001000000000000000000000000000000000\n\
            p 00000101........\nv 00000011000000000000000000000000........ 00\nend 4\n",
        report: Report {
            steps: 4,
            ..ONE_PROGRAM
        },
    },
];

/// A job and its content.
#[derive(Drop)]
struct Prepared<'j> {
    job: &'j Job,
    held: Vec<u8>,
}

/// A job and what its chip holds.
fn prepare<'j>(alloc: Global, job: &'j Job) -> Result<Prepared<'j>, AllocError> {
    let mut held = vec![in alloc; 0xFFu8; 8192]?;
    let (first, sixth) = job.holds;
    for (at, byte) in [(0usize, first), (5, sixth)] {
        if let Some(place) = held.get_mut(at) {
            *place = byte;
        }
    }
    Ok(Prepared { job, held })
}

impl Prepared<'_> {
    /// Builds the job over devices of which one moves so many bytes at a call at most and has this
    /// odd call.
    fn build(&self, alloc: Global, side: Side, most: usize, odd: OddCall) -> Built<'_> {
        let inputs = Inputs {
            verify: self.job.verify,
            ..inputs(self.job.image)
        };
        let mut reader = content(self.held.as_slice(), usize::MAX, 0);
        let mut script = writer(alloc, usize::MAX);
        match side {
            Side::Reader => {
                reader.most = most;
                reader.odd = odd;
            }
            Side::Writer => {
                script.most = most;
                script.odd = odd;
            }
        }
        run_work(alloc, Work::Build, &inputs, reader, 8192, script)
    }

    /// The build's fault; its script is whole or cut, and its devices failed as the fault says.
    fn fault_of(&self, rt: &impl Abort, built: &Built<'_>) -> Option<BuildFault> {
        let fault = fault_beside_script(rt, built, self.job.text, self.job.report);
        let of_writer = u64::from(fault == Some(BuildFault::Write));
        let want = (reads_failed(fault), of_writer);
        same(
            rt,
            "failures",
            (built.read_failures, built.write_failures),
            want,
        );
        fault
    }
}

/// Whose calls are odd.
#[derive(Clone, Copy)]
enum Side {
    Reader,
    Writer,
}

impl Side {
    /// How many bytes an odd call moves, and what a build over it answers: it fails, it moves
    /// nothing, it moves one byte.
    fn ways(self) -> [(Option<usize>, Option<BuildFault>); 3] {
        let (fails, stops) = match self {
            Side::Reader => (BuildFault::Read, BuildFault::ContentShort),
            Side::Writer => (BuildFault::Write, BuildFault::Write),
        };
        [(None, Some(fails)), (Some(0), Some(stops)), (Some(1), None)]
    }

    /// How often the device was called.
    fn calls(self, built: &Built<'_>) -> usize {
        match self {
            Side::Reader => built.reader.call,
            Side::Writer => built.writer.call,
        }
    }
}

#[test]
fn any_call_of_a_device_is_odd(rt: HostRuntime) -> Result<(), Fail> {
    for job in &JOBS {
        has_odd_calls(&rt, rt.alloc(), &prepare(rt.alloc(), job)?);
    }
    Ok(())
}

/// Any call of the devices of a job is odd.
fn has_odd_calls(rt: &impl Abort, alloc: Global, job: &Prepared<'_>) {
    // the reader's bytes at a call, and how often it is called at least
    for (most, least) in [(64, 128), (1000, 9), (usize::MAX, 1)] {
        let calls = each_is_odd(rt, alloc, job, Side::Reader, most);
        holds(rt, "calls of the reader", calls >= least);
    }
    // it gives one byte at a call: the first and the last call of both windows
    for number in [1, 4096, 4097, 8192] {
        is_odd(rt, alloc, job, Side::Reader, 1, number);
    }
    // a flush would be one call more
    let calls = each_is_odd(rt, alloc, job, Side::Writer, 1);
    same(rt, "calls of the writer", calls, job.job.text.len());
    let calls = each_is_odd(rt, alloc, job, Side::Writer, usize::MAX);
    holds(rt, "calls of the writer", calls > 0);
}

/// Over a device that moves so many bytes at a call the job is done; so many calls that takes. Each
/// of them is odd once.
fn each_is_odd(
    rt: &impl Abort,
    alloc: Global,
    job: &Prepared<'_>,
    side: Side,
    most: usize,
) -> usize {
    let built = job.build(alloc, side, most, failing(0));
    same(rt, "no fault", job.fault_of(rt, &built), None);
    let calls = side.calls(&built);
    for number in 1..=calls {
        is_odd(rt, alloc, job, side, most, number);
    }
    calls
}

/// The call of this number is odd in each way. One that fails or moves nothing is the device's
/// last.
fn is_odd(
    rt: &impl Abort,
    alloc: Global,
    job: &Prepared<'_>,
    side: Side,
    most: usize,
    number: usize,
) {
    for (moves, want) in side.ways() {
        let built = job.build(alloc, side, most, OddCall { number, moves });
        let fault = job.fault_of(rt, &built);
        // bytes at a call, and the odd call
        same(
            rt,
            "an odd call",
            (most, number, fault),
            (most, number, want),
        );
        if want.is_some() {
            ends_at(rt, job, side, most, number, &built);
        }
    }
}

/// The call of this number is the device's last.
fn ends_at(
    rt: &impl Abort,
    job: &Prepared<'_>,
    side: Side,
    most: usize,
    number: usize,
    built: &Built<'_>,
) {
    same(rt, "the last call", side.calls(built), number);
    let held = built.writer.held.as_slice();
    let is_front = match side {
        Side::Reader => held == front_after(job, built),
        Side::Writer => most != 1 || held.len() == number.saturating_sub(1),
    };
    holds(rt, "a front", is_front);
}

/// What stands of the script once the reader failed or ended: a window of 4096 bytes is read before
/// its steps are written, and no steps are left for the second one.
fn front_after<'a>(job: &'a Prepared<'_>, built: &Built<'_>) -> &'a [u8] {
    let text = job.job.text.as_bytes();
    let given = 8192usize.saturating_sub(built.reader.ahead.len());
    let end = if given < 4096 {
        "norscript 1\n".len()
    } else {
        text.len().saturating_sub("end 0\n".len())
    };
    text.get(..end).unwrap_or(&[])
}
