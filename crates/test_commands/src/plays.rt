//! Plays over bytes, with a reader and a writer that move few bytes at a call, end early or fail,
//! and with little memory.

ghost use Rattle.std.specs.Prelude.{◌<◌, IfOk};

use crate::devices::{BLANK, Done, content, failing, inputs, roomy_writer, with_devices};
use crate::same::{holds, same};
use nor_base::{ByteIn, ByteOut, FromRead, IntoWrite};
use norprog::BuildFault;
use norprog_common::Refusal;
use norprog_run::{BusyTimes, ChipBehaviour, Verdict, play_script, play_stream};
use std::alloc::{AllocError, Global};
use std::process::Abort;
use std::test::Fail;
use test_samples::texts::ONE_BYTE;

/// What a play answered: its verdict, and its fault where it is one of a build.
type Played<'d> = Done<'d, (Option<Verdict>, Option<BuildFault>)>;

/// Plays the script of one byte on a chip of 8 KiB that a program keeps busy for one status read.
/// The reader has so many bytes; each device moves 5000 bytes at a call, and fails at the call of
/// its number.
fn play(
    alloc: Global,
    has: usize,
    read_fails_at: usize,
    write_fails_at: usize,
) -> Result<Played<'static>, AllocError> {
    let bench = bench(alloc)?;
    let given = BLANK.get(..has).unwrap_or(&[]);
    let mut reader = FromRead::new(content(given, 5000, read_fails_at));
    let mut after = roomy_writer(alloc, 8192, 5000)?;
    after.odd = failing(write_fails_at);
    let mut after = IntoWrite::new(after);
    let answer = play_script(
        alloc,
        &inputs(""),
        bench,
        ONE_BYTE.as_bytes(),
        &mut reader,
        8192,
        &mut after,
    );
    Ok(with_devices(verdict_or_fault(answer), reader, after))
}

/// The same of a script that is read seven bytes at a call, and fails at the call of this number;
/// the reader of the content has so many bytes.
fn play_read(
    alloc: Global,
    script: &str,
    script_fails_at: usize,
    has: usize,
) -> Result<Played<'static>, AllocError> {
    let mut script = FromRead::new(content(script.as_bytes(), 7, script_fails_at));
    let given = BLANK.get(..has).unwrap_or(&[]);
    let mut reader = FromRead::new(content(given, 5000, 0));
    let mut after = IntoWrite::new(roomy_writer(alloc, 8192, 5000)?);
    let answer = play_stream(
        alloc,
        &inputs(""),
        bench(alloc)?,
        &mut script,
        &mut reader,
        8192,
        &mut after,
    );
    Ok(with_devices(verdict_or_fault(answer), reader, after))
}

/// A chip that its first program keeps busy for one status read.
fn bench(alloc: Global) -> Result<ChipBehaviour, AllocError>
    ensures { IfOk result (λ bench. 0 < bench.limit) }
{
    Ok(ChipBehaviour {
        page: None,
        busy: BusyTimes::Listed(Vec::from_slice(alloc, &[1])?),
        keep: false,
        limit: 10,
    })
}

fn verdict_or_fault(answer: Result<Verdict, Refusal>) -> (Option<Verdict>, Option<BuildFault>) {
    match answer {
        Ok(verdict) => (Some(verdict), None),
        Err(Refusal::Build(fault)) => (None, Some(fault)),
        Err(_) => (None, None),
    }
}

/// A play that ends well, with one byte left to read: the chip holds 00h at 0 and is else erased.
fn ends(rt: &impl Abort, played: &Played<'_>) {
    let (verdict, _) = played.answer;
    let done = Verdict::Done { transactions: 4 };
    holds(rt, "the verdict", verdict == Some(done));
    same(rt, "bytes left", played.reader.ahead.len(), 1);
    let held = played.writer.held.as_slice();
    same(rt, "bytes written", held.len(), 8192);
    same(rt, "the first byte", held.first(), Some(&0));
    holds(
        rt,
        "the others",
        held.iter().skip(1).all(|byte| *byte == 255),
    );
}

/// Memory is not wanting.
#[test]
fn plays_from_bytes_to_bytes(rt: HostRuntime) -> Result<(), Fail> {
    ends(&rt, &play(rt.alloc(), 8193, 0, 0)?);
    Ok(())
}

#[test]
fn a_script_comes_in_parts(rt: HostRuntime) -> Result<(), Fail> {
    ends(&rt, &play_read(rt.alloc(), ONE_BYTE, 0, 8193)?);
    let stopped = play_read(rt.alloc(), ONE_BYTE, 3, 8193)?;
    holds(&rt, "no verdict", stopped.answer == (None, None));
    same(&rt, "bytes written", stopped.writer.held.len(), 0);
    Ok(())
}

/// Of a script and a content that are both at fault the script is reported.
#[test]
fn a_script_comes_before_the_content(rt: HostRuntime) -> Result<(), Fail> {
    let cut = play_read(rt.alloc(), "norscript 1\n", 0, 8191)?;
    holds(&rt, "the script's fault", cut.answer == (None, None));
    let short = play_read(rt.alloc(), ONE_BYTE, 0, 8191)?;
    let fault = (None, Some(BuildFault::ContentShort));
    holds(&rt, "the content's fault", short.answer == fault);
    Ok(())
}

/// `tools/refused-growths` runs it with each growth refused in turn, its own ones too.
#[test]
fn a_refused_growth_is_memory(rt: HostRuntime) {
    if let Ok(played) = play(rt.alloc(), 8193, 0, 0) {
        match played.answer {
            (_, Some(fault)) => {
                same(&rt, "refused", fault, BuildFault::Memory);
                same(&rt, "bytes written", played.writer.held.len(), 0);
                let failures = (played.read_failures, played.write_failures);
                same(&rt, "failures", failures, (0, 0));
            }
            _ => ends(&rt, &played),
        }
    }
}

/// How many bytes a reader has, and the calls at which it and the writer fail.
type Devices = (usize, usize, usize);

/// Devices, the fault, how many bytes are left to read, and how many were written.
static ROWS: [(&str, Devices, BuildFault, usize, usize); 6] = [
    ("8191, 0, 0", (8191, 0, 0), BuildFault::ContentShort, 0, 0),
    ("0, 0, 0", (0, 0, 0), BuildFault::ContentShort, 0, 0),
    ("8192, 1, 0", (8192, 1, 0), BuildFault::Read, 8192, 0),
    ("8192, 2, 0", (8192, 2, 0), BuildFault::Read, 3192, 0),
    ("8192, 0, 1", (8192, 0, 1), BuildFault::Write, 0, 0),
    ("8192, 0, 2", (8192, 0, 2), BuildFault::Write, 0, 5000),
];

#[test]
fn devices_that_end_or_fail(rt: HostRuntime) -> Result<(), Fail> {
    for (label, (has, read_fails_at, write_fails_at), fault, left, written) in &ROWS {
        let played = play(rt.alloc(), *has, *read_fails_at, *write_fails_at)?;
        holds(&rt, label, played.answer == (None, Some(*fault)));
        let found = (played.reader.ahead.len(), played.writer.held.len());
        same(&rt, label, found, (*left, *written));
        let failures = (played.read_failures, played.write_failures);
        same(&rt, label, failures, failures_of(*fault));
    }
    Ok(())
}

/// How often the reader and the writer fail at this fault.
fn failures_of(fault: BuildFault) -> (u64, u64) {
    (
        u64::from(fault == BuildFault::Read),
        u64::from(fault == BuildFault::Write),
    )
}
