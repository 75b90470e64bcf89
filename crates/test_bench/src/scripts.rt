//! Whole plays on devices in memory: what goes out, what is printed, and what is reported.

mod rows;

use crate::line::{ANSWERS, PUT, joined};
use crate::same::{holds, same};
use crate::store::{Store, Untold};
use nor_base::IntoWrite;
use norprog_common::{ChipArgs, PlayArgs, SetupArgs};
use norprog_named::play_asked;
use rows::{CUTS, DONES, HALVES, LINES, UNLIKES};
use std::alloc::{AllocError, Global};
use std::cell::Cell;
use std::process::Abort;
use std::test::Fail;
use test_samples::sfdp::SMALL;
use test_samples::texts::ONE_BYTE;
use test_samples::{BLANK, End, Held};

/// What goes out in a handshake; what a device answers to it that sends at most 129 bytes at once
/// and gives at most 4096.
pub(crate) const GREETED: &[u8] = b"\x10\x01\x02\x12\x08\x08\x11\x15\x01";

pub(crate) const GREETING: &[u8] = b"\x15\x06\x06\x01\x00\x06\x06\x01\x2e\
    \x00\x00\x00\x00\x00\x00\x00\x00\x00\x00\x00\x00\x00\x00\x00\
    \x00\x00\x00\x00\x00\x00\x00\x00\x00\x00\x00\x00\x00\x00\x06\
    \x06\x81\x00\x00\x06\x00\x10\x00\x06";

/// A status read.
pub(crate) const STATUS: &[u8] = b"\x13\x01\x00\x00\x01\x00\x00\x05";

/// The cell at 0 is read.
const FIRST: &[u8] = b"\x13\x04\x00\x00\x00\x01\x00\x03\x00\x00\x00";

/// The cell 4 KiB after it, by which a chip of 4 KiB shows.
const MIDDLE: &[u8] = b"\x13\x04\x00\x00\x00\x01\x00\x03\x00\x10\x00";

/// The 4 KiB after its end are read, where one of 8 KiB gives those at 0; and the next, where it
/// gives its last.
pub(crate) const AT_END: &[u8] = b"\x13\x04\x00\x00\x00\x10\x00\x03\x00\x20\x00";

pub(crate) const PAST: &[u8] = b"\x13\x04\x00\x00\x00\x10\x00\x03\x00\x20\x00\
    \x13\x04\x00\x00\x00\x10\x00\x03\x00\x30\x00";

/// A write enable, the program of 00h at 0, and a status read.
pub(crate) const STEPS: &[u8] = b"\x13\x01\x00\x00\x00\x00\x00\x06\
    \x13\x05\x00\x00\x00\x00\x00\x02\x00\x00\x00\x00\
    \x13\x01\x00\x00\x01\x00\x00\x05";

/// The write enable, and the program without its address and its byte.
pub(crate) const HALF_SENT: &[u8] =
    b"\x13\x01\x00\x00\x00\x00\x00\x06\x13\x05\x00\x00\x00\x00\x00\x02";

/// What the chip gives that has done [`STEPS`].
pub(crate) const DONE: &[u8] = b"\x06\x06\x06\x00";

/// ACK, and a cell of FFh; another with this as its first byte.
pub(crate) const CELL: &[u8] = &[0xFF; 256];

pub(crate) const REST: &[u8] = &[0xFF; 255];

/// 4096 bytes of FFh, and 4095.
pub(crate) const MANY: &[u8] = &[0xFF; 4096];

pub(crate) const BUT_ONE: &[u8] = &[0xFF; 4095];

/// What is reported on standard error where steps were sent and not all are known to be done.
const STATE: &[u8] =
    b"norprog: the chip is half done. Don't build the old HEX again: what must be on the chip is \
    what `norprog run --out want.bin` of this script leaves. See: norprog explain the chip may \
    hold\n";

/// A script on a chip of 8 KiB behind a device, and how its play ends.
#[derive(Clone, Copy)]
struct Row {
    text: &'static str,
    /// The dump, and what its last byte is, FFh in all else.
    last: u8,
    /// The chip is described by its tables.
    tables: bool,
    part: Option<&'static str>,
    status: Option<&'static str>,
    limit: &'static str,
    trust: bool,
    /// How many bytes standard output takes.
    room: usize,
    /// What goes out in the handshake, and how many parts of the test of the line; what the device
    /// answers to both.
    opened: &'static [u8],
    parts: usize,
    opening: &'static [u8],
    tested: &'static [u8],
    /// What goes out then, except for the pins at the end; what the device answers to that.
    put: &'static [&'static [u8]],
    answers: &'static [&'static [u8]],
    /// What goes out at the end, what the device answers to that, and how it ends.
    released: &'static [u8],
    released_so: &'static [u8],
    end: End,
    /// Its writer fails once, after all that goes out.
    cut: bool,
    code: u8,
    line: &'static [u8],
    told: &'static [&'static [u8]],
}

/// The job of one byte, done.
const GOOD: Row = Row {
    text: ONE_BYTE,
    last: 0xFF,
    tables: false,
    part: None,
    status: None,
    limit: "3",
    trust: false,
    room: 1000,
    opened: GREETED,
    parts: 12,
    opening: GREETING,
    tested: ANSWERS,
    put: &[STATUS, FIRST, PAST, STEPS, FIRST, MIDDLE, PAST],
    answers: &[
        b"\x06\x00\x06",
        CELL,
        b"\x06",
        MANY,
        b"\x06",
        MANY,
        DONE,
        b"\x06\x00",
        REST,
        b"\x06",
        CELL,
        b"\x06\x00",
        BUT_ONE,
        b"\x06",
        MANY,
    ],
    released: b"\x15\x00",
    released_so: b"\x06",
    end: End::Silent,
    cut: false,
    code: 0,
    line: b"blank\nok 3\n",
    told: &[],
};

/// Plays that are done.

/// What the device of a row answers in all.
fn answers(alloc: Global, row: &Row) -> Result<Vec<u8>, AllocError> {
    let mut all = joined(alloc, &[row.opening, row.tested])?;
    all.extend_from_slice(joined(alloc, row.answers)?.as_slice())?;
    all.extend_from_slice(row.released_so)?;
    Ok(all)
}

/// What goes out to it in all.
fn wanted(alloc: Global, row: &Row) -> Result<Vec<u8>, AllocError> {
    let mut all = joined(alloc, &[row.opened])?;
    for (number, part) in PUT.iter().enumerate() {
        if number < row.parts {
            all.extend_from_slice(part)?;
        }
    }
    all.extend_from_slice(joined(alloc, row.put)?.as_slice())?;
    all.extend_from_slice(row.released)?;
    Ok(all)
}

/// What `play` is asked for.
fn given(row: &Row) -> PlayArgs<'static> {
    let chip = ChipArgs {
        sfdp: row.tables.then_some("tables"),
        uniform: (!row.tables).then_some("8192"),
        sheet: None,
        bits: None,
        part: row.part,
    };
    PlayArgs {
        setup: SetupArgs {
            chip,
            status: row.status,
            mode4: false,
            quad: false,
            erased_only: false,
        },
        content: Some("content"),
        script: Some("script"),
        page: None,
        device: Some("device"),
        limit: Some(row.limit),
        trust: row.trust,
    }
}

/// Plays the script of a row on its device.
fn plays(rt: &impl Abort, alloc: Global, row: &Row) -> Result<(), AllocError> {
    let mut content = Vec::from_slice(alloc, &BLANK)?;
    if let Some(last) = content.last_mut() {
        *last = row.last;
    }
    let answers = answers(alloc, row)?;
    let want = wanted(alloc, row)?;
    let put = Cell::new(Vec::new(alloc));
    let left = Cell::new(answers.len());
    tells(
        rt,
        alloc,
        row,
        content.as_slice(),
        answers.as_slice(),
        row.cut.then_some(want.len()),
        &put,
        &left,
    )?;
    let found = put.replace(Vec::new(alloc));
    same(rt, "how many were put", found.len(), want.len());
    holds(rt, "what was put", found.as_slice() == want.as_slice());
    same(rt, "answers left", left.replace(0), 0);
    Ok(())
}

/// The status of that play, what it prints, and what it tells.
fn tells<'a>(
    rt: &impl Abort,
    alloc: Global,
    row: &Row,
    content: &'a [u8],
    answers: &'a [u8],
    cut: Option<usize>,
    put: &'a Cell<Vec<u8>>,
    left: &'a Cell<usize>,
) -> Result<(), AllocError> {
    let store = Store {
        alloc,
        content,
        script: row.text,
        tables: &SMALL,
        answers,
        end: row.end,
        cut,
        put,
        left,
        saved: None,
    };
    let mut out = IntoWrite::new(Held::new(alloc, row.room));
    let mut err = IntoWrite::new(Held::new(alloc, 1000));
    let mut progress = IntoWrite::new(Held::new(alloc, 1000));
    let code = play_asked(
        alloc,
        &store,
        &mut Untold,
        given(row),
        &mut out,
        &mut err,
        &mut progress,
    );
    holds(rt, "the line", out.inner.bytes.as_slice() == row.line);
    let told = joined(alloc, row.told)?;
    holds(
        rt,
        "what was told",
        err.inner.bytes.as_slice() == told.as_slice(),
    );
    same(rt, "the status", code, row.code);
    if row.line == GOOD.line {
        let line = b"\rstep 3 of 3, 8 of 8 bytes\n";
        let far = progress.inner.bytes.as_slice();
        holds(rt, "how far it came", far == line.as_slice());
    }
    Ok(())
}

#[test]
fn scripts_are_played(rt: HostRuntime) -> Result<(), Fail> {
    for rows in [DONES.as_slice(), &UNLIKES, &HALVES, &CUTS, &LINES] {
        for row in rows {
            plays(&rt, rt.alloc(), row)?;
        }
    }
    Ok(())
}
