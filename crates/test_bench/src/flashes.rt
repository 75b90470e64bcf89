//! Whole work on chips behind devices in memory: what goes out, what is saved and printed, and how
//! it ends.

mod rows;

use crate::line::{ANSWERS, PUT, joined};
use crate::same::{holds, same};
use crate::scripts::{
    AT_END, BUT_ONE, CELL, DONE, GREETED, GREETING, MANY, PAST, REST, STATUS, STEPS,
};
use crate::store::{Store, Untold};
use nor_base::{ByteOut, IntoWrite, Part, put_parts};
use nor_script::hex_pair;
use norprog_common::{Aim, Chip, ChipArgs, ImageArgs, ImageFile, job_rules, refuse};
use norprog_device::{Failure, refuse_device};
use norprog_flash::{Ending, FlashArgs, FlashRequest, Unflashed, report_ending, write_ending};
use norprog_named::flash;
use norprog_read::{ReadRequest, write_unlike};
use rows::{DONES, HALVES, KEPTS, UNLIKES};
use std::alloc::{AllocError, Global};
use std::cell::Cell;
use std::process::Abort;
use std::test::Fail;
use test_samples::texts::IMAGE;
use test_samples::{BLANK, End, Held};

/// The identification is read; what comes.
const ID: &[u8] = b"\x13\x01\x00\x00\x03\x00\x00\x9f";

const IS: &[u8] = b"\x06\xef\x40\x0d";

/// The header of its tables is read; what comes of a chip without tables.
const TABLES: &[u8] = b"\x13\x05\x00\x00\x08\x00\x00\x5a\x00\x00\x00\x00";

const NONE: &[u8] = b"\x06\xff\xff\xff\xff\xff\xff\xff\xff";

/// The chip is read, as many bytes at once as the device gives.
const WHOLE: &[u8] = b"\x13\x04\x00\x00\x00\x10\x00\x03\x00\x00\x00\
    \x13\x04\x00\x00\x00\x10\x00\x03\x00\x10\x00";

/// It is read again in pieces that begin two bytes further on: the first two bytes, as many as the
/// device gives, the rest.
const FIRST_TWO: &[u8] = b"\x13\x04\x00\x00\x02\x00\x00\x03\x00\x00\x00";

const SECOND: &[u8] = b"\x13\x04\x00\x00\x00\x10\x00\x03\x00\x00\x02";

const AGAIN: &[u8] = b"\x13\x04\x00\x00\x02\x00\x00\x03\x00\x00\x00\
    \x13\x04\x00\x00\x00\x10\x00\x03\x00\x00\x02\
    \x13\x04\x00\x00\xfe\x0f\x00\x03\x00\x10\x02";

/// Two bytes of FFh, and as many as the last piece has.
const TWO: &[u8] = b"\x06\xff\xff";

const LESS: &[u8] = &[0xFF; 4094];

/// One byte is read at 0.
const READ_ONE: &[u8] = b"\x13\x04\x00\x00\x01\x00\x00\x03\x00\x00\x00";

/// ACK.
const ACK: &[u8] = b"\x06";

/// What goes out to read the chip; what one gives, with its end, that is idle and empty.
const READ: &[&[u8]] = &[STATUS, ID, TABLES, WHOLE, AGAIN, PAST, ID];

const EMPTY: &[&[u8]] = &[
    b"\x06\x00",
    IS,
    NONE,
    ACK,
    MANY,
    ACK,
    MANY,
    TWO,
    ACK,
    MANY,
    ACK,
    LESS,
    ACK,
    MANY,
    ACK,
    MANY,
    IS,
];

/// What is printed before the first step of a job of [`no_texts`].
const WAY: &[u8] = b"if this stops on the way: switch the chip's power off and on, \
    and go on with: norprog flash --resume=''\n";

/// How far the work of one program comes.
const FAR: &[u8] = b"\rstep 4 of 4, 13 of 13 bytes\n";

/// What is told of two readings of the whole chip.
const READINGS: &[u8] =
    b"\rfirst reading: 8192 of 8192 bytes\n\rsecond reading: 8192 of 8192 bytes\n";

/// What is told of the reading after the work.
const LAST: &[u8] = b"\rlast reading: 8192 of 8192 bytes\n";

/// The lines of the plan of one program at 0.
const PLAN: &[u8] =
    b"program 00000000 1\nstrategy S2\nsteps 4\nerases 0\nerased 0\nprograms 1\nignored 0\n";

/// Work on a chip of 8 KiB behind a device that gives at most 4096 bytes at once, and how it ends.
#[derive(Clone, Copy)]
struct Row {
    hex: &'static str,
    /// Of work that is resumed, the first bytes of the older dump, and how many bytes of FFh it has
    /// after them.
    old: Option<(&'static [u8], usize)>,
    dry: bool,
    /// No file of the name is there.
    free: bool,
    /// What goes out in the handshake, and how many parts of the test of the line; what the device
    /// answers to both.
    opened: &'static [u8],
    parts: usize,
    opening: &'static [u8],
    tested: &'static [u8],
    /// The chip is read then, and is empty.
    empty: bool,
    /// What goes out after that, except for the pins at the end; what the device answers to that.
    put: &'static [&'static [u8]],
    answers: &'static [&'static [u8]],
    /// What goes out at the end, what the device answers to that, and how it ends.
    released: &'static [u8],
    released_so: &'static [u8],
    end: End,
    /// Its writer fails once, after all that goes out.
    cut: bool,
    /// The first bytes of the file that was made; FFh are those after them.
    saved: Option<&'static [u8]>,
    plan: &'static [u8],
    /// How to go on, after the plan.
    way: &'static [u8],
    far: &'static [u8],
    line: &'static [u8],
}

/// Work that is done.

/// What the device of a row answers in all.
fn answers(alloc: Global, row: &Row) -> Result<Vec<u8>, AllocError> {
    let mut all = joined(alloc, &[row.opening, row.tested])?;
    if row.empty {
        all.extend_from_slice(joined(alloc, EMPTY)?.as_slice())?;
    }
    all.extend_from_slice(joined(alloc, row.answers)?.as_slice())?;
    all.extend_from_slice(row.released_so)?;
    Ok(all)
}

/// What goes out to it in all.
fn wanted(alloc: Global, row: &Row) -> Result<Vec<u8>, AllocError> {
    let mut all = joined(alloc, &[row.opened])?;
    for (number, part) in PUT.iter().enumerate() {
        if number < row.parts {
            all.extend_from_slice(part)?;
        }
    }
    if row.empty {
        all.extend_from_slice(joined(alloc, READ)?.as_slice())?;
    }
    all.extend_from_slice(joined(alloc, row.put)?.as_slice())?;
    all.extend_from_slice(row.released)?;
    Ok(all)
}

/// These bytes, and so many of FFh after them, at most 8192.
fn dump(alloc: Global, front: &[u8], after: usize) -> Result<Vec<u8>, AllocError> {
    joined(alloc, &[front, BLANK.get(..after).unwrap_or(&BLANK)])
}

/// The older dump of a row, where there is one.
fn old_in(alloc: Global, row: &Row) -> Result<Vec<u8>, AllocError> {
    let (front, after) = row.old.unwrap_or((b"", 0));
    dump(alloc, front, after)
}

/// The line of work that ended so: that of its ending, of its refusal, or of what was asked for and
/// came otherwise.
fn line_of(alloc: Global, ended: Result<Ending, Unflashed>) -> Vec<u8> {
    let mut line = IntoWrite::new(Held::new(alloc, 1000));
    let _ = match ended {
        Ok(ending) => write_ending(ending, &mut line).is_ok(),
        Err(Unflashed::Unlike(why)) => write_unlike(why, &mut line).is_ok(),
        Err(Unflashed::Device(fault)) => refuse_device(fault, &mut line) == 1,
        Err(Unflashed::Refused(refusal)) => refuse(&refusal, &mut line) == 1,
        Err(Unflashed::Closed(status)) => {
            let digits = hex_pair((status % 256) as u8);
            put_parts(&mut line, &[b"closed ", &digits, b"\n"]).is_ok()
        }
    };
    line.into_inner().bytes
}

/// The files of a row, and its device; where no file of the name is there, what is saved has this
/// place.
fn store_of<'a>(
    alloc: Global,
    row: &Row,
    old: &'a [u8],
    answers: &'a [u8],
    cut: Option<usize>,
    put: &'a Cell<Vec<u8>>,
    left: &'a Cell<usize>,
    saved: &'a Cell<Vec<u8>>,
) -> Store<'a> {
    let place = if row.free { Some(saved) } else { None };
    Store {
        alloc,
        content: old,
        script: row.hex,
        tables: &[],
        answers,
        end: row.end,
        cut,
        put,
        left,
        saved: place,
    }
}

/// Does the work of a row on its device.
fn flashes(rt: &impl Abort, alloc: Global, row: &Row) -> Result<(), AllocError> {
    let answers = answers(alloc, row)?;
    let put = Cell::new(Vec::new(alloc));
    let left = Cell::new(answers.len());
    let saved = Cell::new(Vec::new(alloc));
    let want = wanted(alloc, row)?;
    let cut = row.cut.then_some(want.len());
    let old = old_in(alloc, row)?;
    let store = store_of(
        alloc,
        row,
        old.as_slice(),
        answers.as_slice(),
        cut,
        &put,
        &left,
        &saved,
    );
    works(rt, alloc, &store, row)?;
    let found = put.replace(Vec::new(alloc));
    same(rt, "how many were put", found.len(), want.len());
    holds(rt, "what was put", found.as_slice() == want.as_slice());
    same(rt, "answers left", left.replace(0), 0);
    has_saved(rt, alloc, saved.replace(Vec::new(alloc)), row)
}

/// What was saved is what the row says.
fn has_saved(rt: &impl Abort, alloc: Global, found: Vec<u8>, row: &Row) -> Result<(), AllocError> {
    match row.saved {
        Some(front) => {
            let want = dump(alloc, front, BLANK.len().saturating_sub(front.len()))?;
            holds(rt, "what was saved", found.as_slice() == want.as_slice());
        }
        None => same(rt, "nothing is saved", found.len(), 0),
    }
    Ok(())
}

/// The texts of a command line without any.
fn no_texts(alloc: Global) -> FlashArgs<'static> {
    FlashArgs {
        chip: ChipArgs {
            sfdp: None,
            uniform: None,
            sheet: None,
            bits: None,
            part: None,
        },
        page: None,
        mode4: false,
        device: None,
        limit: None,
        image: ImageArgs {
            hex: Vec::new(alloc),
            bin: Vec::new(alloc),
        },
        layout: None,
        base: None,
        before: None,
        resume: None,
        erased_only: false,
        strict: false,
        partial: false,
        beyond: false,
        aim: Aim::Work,
        blank: false,
        all: false,
        list: true,
        near: false,
        raw: false,
        fresh: false,
        any_size: false,
        repeats: false,
        expect_id: None,
        regions: Vec::new(alloc),
    }
}

/// What is asked of a chip of 8 KiB without tables, whose image is the file `script`, and the older
/// dump the file `content`.
fn request_of<'a>(row: &Row, texts: &'a FlashArgs<'a>) -> FlashRequest<'a> {
    let read = ReadRequest {
        chip: Some(Chip::Uniform(8192)),
        bits: "",
        part: Part::Generic,
        page: None,
        mode4: false,
        device: "device",
        limit: 3,
        tables: None,
        out: Some("before"),
        raw: false,
        fresh: true,
        any_size: false,
        repeats: false,
        expect_id: None,
    };
    FlashRequest {
        read,
        image: Some(ImageFile::Hex("script")),
        images: &texts.image,
        layout: None,
        base: 0,
        before: "before",
        resume: row.old.map(|_| "content"),
        erased_only: false,
        rules: job_rules(false, false, false),
        near: false,
        aim: if row.dry { Aim::Plan } else { Aim::Work },
        regions: &[],
        texts,
    }
}

/// Does the work of a row.
fn ended_by<O: ByteOut, P: ByteOut>(
    alloc: Global,
    store: &Store<'_>,
    row: &Row,
    texts: &FlashArgs<'_>,
    out: &mut O,
    progress: &mut P,
) -> Result<Ending, Unflashed> {
    let request = request_of(row, texts);
    flash(alloc, store, &mut Untold, &request, out, progress)
}

/// Does the work of a row, and compares what is printed.
fn works(rt: &impl Abort, alloc: Global, store: &Store<'_>, row: &Row) -> Result<(), AllocError> {
    let mut out = IntoWrite::new(Held::new(alloc, 1000));
    let mut progress = IntoWrite::new(Held::new(alloc, 1000));
    let texts = no_texts(alloc);
    let ended = ended_by(alloc, store, row, &texts, &mut out, &mut progress);
    let line = line_of(alloc, ended);
    holds(rt, "the line", line.as_slice() == row.line);
    let plan = out.into_inner().bytes;
    let want = joined(alloc, &[row.plan, row.way])?;
    holds(rt, "the plan", plan.as_slice() == want.as_slice());
    let far = progress.into_inner().bytes;
    holds(rt, "how far it came", of_steps(far.as_slice()) == row.far);
    Ok(())
}

/// Of what is told of two readings, the work and the last reading, what is of the work; nothing
/// where the readings aren't whole.
fn of_steps(far: &[u8]) -> &[u8] {
    if !far.starts_with(READINGS) {
        return &[];
    }
    let rest = far.get(READINGS.len()..).unwrap_or(&[]);
    if !rest.ends_with(LAST) {
        return rest;
    }
    let len = rest.len().saturating_sub(LAST.len());
    rest.get(..len).unwrap_or(&[])
}

#[test]
fn chips_are_flashed(rt: HostRuntime) -> Result<(), Fail> {
    for rows in [DONES.as_slice(), &KEPTS, &UNLIKES, &HALVES] {
        for row in rows {
            flashes(&rt, rt.alloc(), row)?;
        }
    }
    Ok(())
}

/// Where memory is refused on the way the chip may be half done, but not before the first step.
#[test]
fn memory_may_end(rt: HostRuntime) {
    ends_starved(&rt, rt.alloc(), 12, b"failed at 12 memory\n", 3);
    ends_starved(&rt, rt.alloc(), 0, b"failed at 0 memory\n", 1);
}

/// Where memory is refused for this step, with this line and this status.
fn ends_starved(rt: &impl Abort, alloc: Global, step: u64, want: &[u8], status: usize) {
    let ending = Ending::Failed {
        step,
        why: Failure::Memory,
    };
    let mut out = IntoWrite::new(Held::new(alloc, 100));
    let mut err = IntoWrite::new(Held::new(alloc, 1000));
    let ended = report_ending(ending, &no_texts(alloc), &mut out, &mut err);
    same(rt, "its status", usize::from(ended), status);
    let line = out.into_inner().bytes;
    holds(rt, "its line", line.as_slice() == want);
    let told = err.into_inner().bytes;
    same(
        rt,
        "what is told",
        usize::from(told.is_empty()),
        usize::from(status == 1),
    );
}
