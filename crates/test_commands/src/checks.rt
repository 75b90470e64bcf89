//! Checks with little memory, and of a script that a device gives.

use crate::builds::one_name;
use crate::devices::{BLANK, SlowReader, content, inputs, run_check};
use crate::same::{holds, same};
use nor_base::{Failed, FromRead};
use norprog::{BuildFault, Inputs};
use norprog_check::{CheckStop, ScriptFault, StreamStop, Verdict, check_stream};
use std::alloc::{AllocError, Global};
use std::test::Fail;
use test_samples::texts::{IMAGE, ONE_BYTE};

/// The verdict on the script of one byte, by a layout.
///
/// `AllocError` where its own memory is refused.
fn one_byte_job(alloc: Global) -> Result<Result<Verdict, CheckStop>, AllocError> {
    let names = one_name(alloc)?;
    let inputs = Inputs {
        layout: Some(b"0:fff a"),
        regions: names.as_slice(),
        ..inputs(IMAGE)
    };
    let reader = content(&BLANK, usize::MAX, 0);
    Ok(run_check(alloc, &inputs, ONE_BYTE, reader, 8192).answer)
}

/// Memory is not wanting.
#[test]
fn says_yes(rt: HostRuntime) -> Result<(), Fail> {
    let said = one_byte_job(rt.alloc())?;
    holds(&rt, "the verdict", said == Ok(Verdict::Yes));
    Ok(())
}

/// With each growth refused in turn, as `tools/refused-growths` does, the fault is Memory.
#[test]
fn a_refused_growth_is_memory(rt: HostRuntime) {
    if let Ok(Err(stop)) = one_byte_job(rt.alloc()) {
        same(&rt, "refused", stop, CheckStop::Build(BuildFault::Memory));
    }
}

/// A script and the call at which its device fails; how many bytes the content has, and the call at
/// which that fails.
type Streams = (&'static str, usize, usize, usize);

/// What comes of such a check, by its label.
static STREAMS: [(&str, Streams, Result<Verdict, StreamStop>); 6] = [
    ("both whole", (ONE_BYTE, 0, 8192, 0), Ok(Verdict::Yes)),
    (
        "a script fails",
        (ONE_BYTE, 2, 8192, 0),
        Err(StreamStop::Device(Failed)),
    ),
    (
        "a content ends",
        (ONE_BYTE, 0, 100, 0),
        Err(StreamStop::Check(CheckStop::Build(BuildFault::ContentShort))),
    ),
    (
        "a content fails",
        (ONE_BYTE, 0, 8192, 1),
        Err(StreamStop::Check(CheckStop::Build(BuildFault::Read))),
    ),
    // what is wrong with the script comes first
    (
        "no script",
        ("norscript 2\nend 0\n", 0, 100, 0),
        Err(StreamStop::Check(CheckStop::Script(ScriptFault::Header(1)))),
    ),
    (
        "both fail",
        (ONE_BYTE, 2, 8192, 1),
        Err(StreamStop::Device(Failed)),
    ),
];

/// The script comes 16 bytes at a call.
#[test]
fn a_script_comes_from_a_device(rt: HostRuntime) {
    for (label, (script, script_fails, has, content_fails), want) in &STREAMS {
        let script = content(script.as_bytes(), 16, *script_fails);
        let given = content(BLANK.get(..*has).unwrap_or(&[]), 8192, *content_fails);
        let said = stream_check(rt.alloc(), script, given);
        holds(&rt, label, said == *want);
    }
}

/// What a check of these devices says.
fn stream_check(
    alloc: Global,
    script: SlowReader<'_>,
    content: SlowReader<'_>,
) -> Result<Verdict, StreamStop> {
    let mut script = FromRead::new(script);
    let mut content = FromRead::new(content);
    check_stream(alloc, &inputs(IMAGE), &mut script, &mut content, 8192).map(|found| found.verdict)
}
