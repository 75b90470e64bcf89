//! Lines of numbers that no job here reaches, and a writer that fails at each byte of a line.

use crate::builds::ONE_PROGRAM;
use crate::devices::{Built, SlowWriter, failing, writer};
use crate::plans::{ONE_LINE, one_byte_plan};
use crate::same::{holds, same};
use nor_base::{ByteOut, IntoWrite, Strategy};
use nor_geometry::PlanFault;
use norprog::{BuildFault, HexFault, LayoutFault, Report, write_report};
use norprog_check::{Finding, ShowingChip, Verdict, Why, Wrong};
use norprog_common::{Refusal, refuse};
use std::alloc::Global;
use std::process::Abort;
use std::test::Fail;

/// Each wrong, and its number.
static WRONGS: [(Wrong, u8); 8] = [
    (Wrong::Ignored, 1),
    (Wrong::Unknown, 2),
    (Wrong::Raised, 3),
    (Wrong::OutOfRange, 4),
    (Wrong::Mismatch, 5),
    (Wrong::PollNever, 6),
    (Wrong::NotIdleAtEnd, 7),
    (Wrong::NotErased, 8),
];

/// Steps and addresses that differ there, and the lines of such a check.
static DIFFERS: [(u64, u32, &str); 3] = [
    (3, 0x0ABC_DEF1, "no at 3 differs 0abcdef1\n"),
    (10, 4096, "no at 10 differs 00001000\n"),
    (7, u32::MAX, "no at 7 differs ffffffff\n"),
];

/// Chips that show a no at 3, and what is printed behind the line of the verdict.
static SHOWN: [(u32, bool, Option<u32>, &str); 4] = [
    (1, false, None, "shown by norprog run --each-busy 1\n"),
    (
        999_999,
        true,
        None,
        "shown by norprog run --each-busy 999999 --keep\n",
    ),
    (
        1_000_000,
        false,
        Some(16),
        "shown by norprog run --each-busy 1000000 --page 16 --limit 1000001\n",
    ),
    (
        u32::MAX,
        true,
        Some(4096),
        "shown by norprog run --each-busy 4294967295 --keep --page 4096 --limit 4294967296\n",
    ),
];

/// Faults, and what is printed of them.
static FAULTS: [(BuildFault, &str); 9] = [
    (
        BuildFault::Contradiction(255),
        "norprog: contradiction 255\n",
    ),
    (
        BuildFault::Hex(HexFault::NoEnd { line: u64::MAX }),
        "norprog: hex 7 line 18446744073709551615\n",
    ),
    (BuildFault::Hex(HexFault::Memory), "norprog: memory\n"),
    (
        BuildFault::Layout(LayoutFault::TooMany(0)),
        "norprog: layout 5 line 0\n",
    ),
    (BuildFault::Layout(LayoutFault::Memory), "norprog: memory\n"),
    (BuildFault::ContentShort, "norprog: content short\n"),
    (BuildFault::Read, "norprog: read\n"),
    (BuildFault::Memory, "norprog: memory\n"),
    (
        BuildFault::Plan(PlanFault::Unreachable(0x0ABC_DEF9)),
        "norprog: plan 2 at 0abcdef9\n",
    ),
];

/// A report of distinct numbers.
const REPORT: Report = Report {
    strategy: Strategy::S3,
    steps: 120,
    erases: 7,
    erased: 28_672,
    programs: 40,
    ignored: 18_446_744_073_709_551_615,
};

const REPORT_TEXT: &str =
    "strategy S3\nsteps 120\nerases 7\nerased 28672\nprograms 40\nignored 18446744073709551615\n";

const NO_TEXT: &str = "no at 12 differs 0abcdef1\n";

/// A verdict on a step that goes so.
fn no(step: u64, why: Why) -> Verdict {
    Verdict::No { step, why }
}

#[test]
fn each_verdict_has_its_line(rt: HostRuntime) -> Result<(), Fail> {
    for (step, address, want) in &DIFFERS {
        let mut line = IntoWrite::new(Vec::new(rt.alloc()));
        norprog_check::write_verdict(&no(*step, Why::Differs(*address)), &mut line)?;
        holds(&rt, want, line.inner.as_slice() == want.as_bytes());
    }
    for (why, number) in &WRONGS {
        has_lines(&rt, rt.alloc(), *why, *number)?;
    }
    Ok(())
}

#[test]
fn each_chip_has_its_line(rt: HostRuntime) -> Result<(), Fail> {
    for (each_busy, keep, page, want) in &SHOWN {
        let chip = ShowingChip {
            each_busy: *each_busy,
            keep: *keep,
            page: *page,
        };
        let found = Finding {
            verdict: no(3, Why::Differs(16)),
            chip: Some(chip),
        };
        let mut lines = IntoWrite::new(Vec::new(rt.alloc()));
        norprog_check::write_finding(&found, true, &mut lines)?;
        let text = format!(in rt.alloc(); "no at 3 differs 00000010\n{want}")?;
        holds(&rt, want, lines.inner.as_slice() == text.as_bytes());
        let mut line = IntoWrite::new(Vec::new(rt.alloc()));
        norprog_check::write_finding(&found, false, &mut line)?;
        holds(
            &rt,
            want,
            line.inner.as_slice() == b"no at 3 differs 00000010\n".as_slice(),
        );
    }
    Ok(())
}

/// The lines of steps that go wrong, of a check and of a play.
fn has_lines(rt: &impl Abort, alloc: Global, why: Wrong, number: u8) -> Result<(), Fail> {
    for step in [0, 1, 9, 10, 12, 99, 100, u64::MAX] {
        let want = format!(in alloc; "no at {step} wrong {number}\nwrong {number} at {step}\n")?;
        let mut lines = IntoWrite::new(Vec::new(alloc));
        let is_whole = writes_both(step, why, &mut lines);
        let found = lines.inner.as_slice();
        holds(rt, want.as_str(), is_whole && found == want.as_bytes());
    }
    Ok(())
}

/// Writes the line of a check and that of a play, and says whether they are whole.
fn writes_both(step: u64, why: Wrong, lines: &mut IntoWrite<Vec<u8>>) -> bool {
    let played = norprog_run::Verdict::Wrong { step, why };
    norprog_check::write_verdict(&no(step, Why::Wrong(why)), lines).is_ok()
        && norprog_run::write_verdict(&played, lines).is_ok()
}

#[test]
fn each_fault_has_its_line(rt: HostRuntime) {
    for (fault, line) in &FAULTS {
        let mut err = IntoWrite::new(Vec::new(rt.alloc()));
        same(&rt, line, refuse(&Refusal::Build(*fault), &mut err), 1);
        holds(&rt, line, err.inner.as_slice() == line.as_bytes());
    }
}

/// A writer that takes a byte at a call, and fails at the call of this number.
fn failing_writer(alloc: Global, fails_at: usize) -> SlowWriter {
    let mut slow = writer(alloc, 1);
    slow.odd = failing(fails_at);
    slow
}

#[test]
fn a_failing_writer_holds_a_proper_prefix(rt: HostRuntime) -> Result<(), Fail> {
    for fails_at in 1..=REPORT_TEXT.len() + 1 {
        report_fails(&rt, rt.alloc(), fails_at);
    }
    for fails_at in 1..=NO_TEXT.len() + 1 {
        verdict_fails(&rt, rt.alloc(), fails_at);
    }
    for fails_at in 1..=ONE_LINE.len() + 1 {
        plan_fails(&rt, &one_byte_plan(rt.alloc(), 1, fails_at)?, fails_at);
    }
    Ok(())
}

/// The lines of a report.
fn report_fails(rt: &impl Abort, alloc: Global, fails_at: usize) {
    let mut slow = IntoWrite::new(failing_writer(alloc, fails_at));
    let failed = write_report(&REPORT, &mut slow).is_err();
    is_front(rt, REPORT_TEXT, fails_at, failed, &slow);
}

/// The line of a verdict.
fn verdict_fails(rt: &impl Abort, alloc: Global, fails_at: usize) {
    let mut slow = IntoWrite::new(failing_writer(alloc, fails_at));
    let verdict = no(12, Why::Differs(0x0ABC_DEF1));
    let failed = norprog_check::write_verdict(&verdict, &mut slow).is_err();
    is_front(rt, NO_TEXT, fails_at, failed, &slow);
}

/// What was written by a writer that takes a byte at a call, and failed once if at all, is what
/// stands before the byte at which it fails.
fn is_front(
    rt: &impl Abort,
    text: &str,
    fails_at: usize,
    failed: bool,
    slow: &IntoWrite<SlowWriter>,
) {
    same(rt, text, slow.failures(), u64::from(failed));
    holds_front(rt, text, fails_at, failed, slow.inner.held.as_slice());
}

/// This is what stands before the byte at which a writer fails.
fn holds_front(rt: &impl Abort, text: &str, fails_at: usize, failed: bool, held: &[u8]) {
    same(rt, text, failed, fails_at <= text.len());
    same(rt, text, held.len(), fails_at.saturating_sub(1));
    holds(rt, text, text.as_bytes().starts_with(held));
}

/// The line of a plan.
fn plan_fails(rt: &impl Abort, told: &Built<'_>, fails_at: usize) {
    let failed = told.answer == Err(BuildFault::Write);
    holds(rt, ONE_LINE, failed || told.answer == Ok(ONE_PROGRAM));
    let failures = (told.read_failures, told.write_failures);
    same(rt, ONE_LINE, failures, (0, u64::from(failed)));
    holds_front(rt, ONE_LINE, fails_at, failed, told.writer.held.as_slice());
}
