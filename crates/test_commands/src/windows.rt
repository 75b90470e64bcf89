//! Contents that end or fail in the second window: what was written by then is that of the first.

use crate::devices::{Work, content, inputs, run_work, writer};
use crate::plans::ONE_LINE;
use crate::same::{holds, same};
use norprog::{BuildFault, Inputs, Source};
use std::alloc::Global;
use std::process::Abort;
use std::test::Fail;
use test_samples::sfdp::{LONE_BLOCK, SMALL, patched};

/// The script's first line.
const HEADER: &str = "norscript 1\n";

/// The script that programs 00h at address 0, without its end line.
const FRONT: &str =
    "norscript 1\nx 00000110\nx 0000001000000000000000000000000000000000\np 00000101........\n";

/// How many bytes a reader has, the call at which it fails, what the work answers, and what a build
/// and a plan have written.
type Row = (usize, usize, BuildFault, &'static str, &'static str);

/// The first window has 64 KiB, the second one 4 KiB.
static ROWS: [Row; 4] = [
    (0x10000, 0, BuildFault::ContentShort, FRONT, ONE_LINE),
    (0x10FFF, 0, BuildFault::ContentShort, FRONT, ONE_LINE),
    (0xFFFF, 0, BuildFault::ContentShort, HEADER, ""),
    (0x11000, 2, BuildFault::Read, FRONT, ONE_LINE),
];

/// An image with a byte in each window.
const TWO: &str = ":0100000000FF\n:020000040001F9\n:0100000001FE\n:00000001FF\n";

#[test]
fn a_window_is_written_when_it_was_read(rt: HostRuntime) -> Result<(), Fail> {
    let bytes = patched(rt.alloc(), &SMALL, LONE_BLOCK)?;
    let mut held = vec![in rt.alloc(); 0xFFu8; 0x11000]?;
    if let Some(place) = held.get_mut(0x10000) {
        *place = 0;
    }
    for row in &ROWS {
        try_row(&rt, rt.alloc(), bytes.as_slice(), held.as_slice(), row);
    }
    Ok(())
}

/// A build and a plan over the row's reader answer what the row says, and have written that.
fn try_row(rt: &impl Abort, alloc: Global, bytes: &[u8], held: &[u8], row: &Row) {
    let (has, fails_at, fault, script, lines) = row;
    let inputs = Inputs {
        chip: Source::Sfdp { bytes, bits: "" },
        ..inputs(TWO)
    };
    let given = held.get(..*has).unwrap_or(&[]);
    for (work, written) in [(Work::Build, script), (Work::Plan, lines)] {
        let reader = content(given, usize::MAX, *fails_at);
        let done = run_work(alloc, work, &inputs, reader, 0x11000, writer(alloc, 128));
        same(rt, written, done.answer.err(), Some(*fault));
        let held = done.writer.held.as_slice();
        holds(rt, written, held == written.as_bytes());
    }
}
