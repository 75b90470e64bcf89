//! Scripts at a writer that fails, and where memory is refused.

use crate::devices::OneByOne;
use crate::same::{holds, same};
use nor_base::{ByteOut, Failed, FromRead, IntoWrite, Step, is_step};
use nor_script::{ReadFault, ScriptFault, begin, count_steps, finish, read, write_step};
use std::alloc::Global;
use std::process::Abort;
use std::test::Fail;

/// Each kind of step once.
const TEXT: &str = "norscript 1\nx 00000110\np 00000101........\nv 01101011--==== 0fa5\nend 3\n";

/// Writes the steps that have a line.
fn write_all<W: ByteOut>(steps: &[Step], writer: &mut W) -> Result<(), Failed> {
    if writer.failures() > 0 {
        return Err(Failed);
    }
    begin(writer)?;
    for step in steps {
        if is_step(step) && writer.failures() == 0 {
            write_step(step, writer)?;
        }
    }
    if writer.failures() > 0 {
        return Err(Failed);
    }
    finish(3, writer)
}

#[test]
fn a_failing_writer_holds_a_front(rt: HostRuntime) -> Result<(), Fail> {
    let steps = read(rt.alloc(), TEXT.as_bytes())?;
    for fails_at in 1..=TEXT.len() + 1 {
        writes_up_to(&rt, &steps, OneByOne::new(rt.alloc(), fails_at));
    }
    Ok(())
}

/// Writes the script to a writer that may fail.
fn writes_up_to(rt: &impl Abort, steps: &[Step], inner: OneByOne) {
    let fails_at = inner.fails_at;
    let fails = fails_at <= TEXT.len();
    let mut writer = IntoWrite::new(inner);
    same(rt, "written", write_all(steps, &mut writer).is_err(), fails);
    same(rt, "failures", writer.failures(), u64::from(fails));
    let held = writer.into_inner().held;
    same(rt, "held", held.len(), fails_at.saturating_sub(1));
    holds(rt, "a front", TEXT.as_bytes().starts_with(held.as_slice()));
}

/// How many steps the script has, as it is read, and as it comes.
fn count(alloc: Global) -> Result<(usize, u64), ScriptFault> {
    let steps = read(alloc, TEXT.as_bytes())?.len();
    match count_steps(alloc, &mut FromRead::new(TEXT.as_bytes())) {
        Ok(come) => Ok((steps, come)),
        Err(ReadFault::Script(fault)) => Err(fault),
        Err(ReadFault::Device(_)) => Err(ScriptFault::Header(0)),
    }
}

/// Memory is not wanting.
#[test]
fn reads_each_step(rt: HostRuntime) {
    same(&rt, "steps", count(rt.alloc()), Ok((3, 3)));
}

/// With each growth refused in turn, as `tools/refused-growths` does, the fault is Memory.
#[test]
fn a_refused_growth_is_memory(rt: HostRuntime) {
    let fine = matches!(count(rt.alloc()), Ok((3, 3)) | Err(ScriptFault::Memory));
    holds(&rt, "steps", fine);
}
