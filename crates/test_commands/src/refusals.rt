//! What is refused early asks no device for anything.

use crate::devices::{BLANK, Work, content, inputs, run_check, run_work, writer};
use crate::same::{holds, same};
use norprog::{BuildFault, HexFault, Inputs, LayoutFault, SfdpFault, Source};
use norprog_check::{CheckStop, ScriptFault};
use std::alloc::Global;
use std::process::Abort;
use test_samples::texts::{IMAGE, ONE_BYTE};

/// An image with a wrong checksum.
const BAD: &str = ":0100000000FE\n:00000001FF\n";

/// Each cause of an early refusal, in the order of looking.
static CAUSES: [(&str, BuildFault); 6] = [
    ("contradiction", BuildFault::Contradiction(2)),
    ("hex", BuildFault::Hex(HexFault::BadSum { line: 1 })),
    ("layout", BuildFault::Layout(LayoutFault::EndBeforeStart(1))),
    ("sfdp", BuildFault::Sfdp(SfdpFault::Density)),
    ("mode", BuildFault::ModeImpossible),
    ("content", BuildFault::ContentSize),
];

/// Inputs that have this cause alone.
fn faulty(cause: BuildFault) -> Inputs<'static> {
    let plain = inputs(IMAGE);
    match cause {
        BuildFault::Contradiction(_) => Inputs {
            status: Some(0),
            ..plain
        },
        BuildFault::Hex(_) => inputs(BAD),
        BuildFault::Layout(_) => Inputs {
            layout: Some(b"10:0f a"),
            ..plain
        },
        BuildFault::Sfdp(_) => Inputs {
            chip: Source::Uniform(4097),
            ..plain
        },
        BuildFault::ModeImpossible => Inputs {
            mode4: true,
            ..plain
        },
        _ => plain,
    }
}

#[test]
fn an_early_refusal_leaves_the_devices_alone(rt: HostRuntime) {
    for (label, cause) in &CAUSES {
        leaves_alone(&rt, rt.alloc(), label, *cause);
    }
}

/// A build, a plan and a check of inputs with this cause are refused so, before a call of their
/// devices.
fn leaves_alone(rt: &impl Abort, alloc: Global, label: &str, cause: BuildFault) {
    let inputs = faulty(cause);
    let short = cause == BuildFault::ContentSize;
    let len = if short { 8191 } else { 8192 };
    for work in [Work::Build, Work::Plan] {
        let reader = content(&BLANK, usize::MAX, 0);
        let done = run_work(alloc, work, &inputs, reader, len, writer(alloc, 1));
        holds(rt, label, done.answer == Err(cause));
        same(rt, label, (done.reader.call, done.writer.call), (0, 0));
    }
    stops(rt, alloc, &inputs, ONE_BYTE, len, CheckStop::Build(cause));
    if short {
        // the content comes after a bad script
        let want = CheckStop::Script(ScriptFault::Header(1));
        stops(rt, alloc, &inputs, "norscript 2\nend 0\n", 8192, want);
    }
}

/// A check is refused so, before a call of its reader, which ends early.
fn stops(
    rt: &impl Abort,
    alloc: Global,
    inputs: &Inputs<'_>,
    script: &str,
    len: u64,
    want: CheckStop,
) {
    let reader = content(BLANK.get(..100).unwrap_or(&[]), usize::MAX, 0);
    let checked = run_check(alloc, inputs, script, reader, len);
    holds(rt, "a check", checked.answer == Err(want));
    same(rt, "calls of its reader", checked.reader.call, 0);
}
