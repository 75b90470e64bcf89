//! Steps that a device does, and where it stops.

use crate::same::{holds, same};
use nor_base::{FromRead, IntoWrite, Step};
use nor_flasher::{Halt, are_doable, do_steps};
use nor_script::read;
use nor_serprog::{Fault, Limits, Reason, carried, do_step, is_doable};
use std::alloc::Global;
use std::process::Abort;
use std::test::Fail;
use test_samples::{Canned, End, Held};

/// A program of 00h at 0, and a read of it.
const SCRIPT: &str =
    "norscript 1\nx 00000110\nx 0000001000000000000000000000000000000000\np 00000101........\n\
    v 00000011000000000000000000000000........ 00\nend 4\n";

/// A status read of which 01h is expected: one operation, and no wait.
const STATUS: &str = "norscript 1\nv 00000101........ 01\nend 1\n";

/// What goes out: a write enable, the program, three status reads, and the read.
const PUT: &[u8] = b"\x13\x01\x00\x00\x00\x00\x00\x06\
    \x13\x05\x00\x00\x00\x00\x00\x02\x00\x00\x00\x00\
    \x13\x01\x00\x00\x01\x00\x00\x05\
    \x13\x01\x00\x00\x01\x00\x00\x05\
    \x13\x01\x00\x00\x01\x00\x00\x05\
    \x13\x04\x00\x00\x01\x00\x00\x03\x00\x00\x00";

/// Most bytes that go out, how many a device takes before it answers, most status reads of a poll,
/// and what it answers. How the steps end, how many bytes were put, and what was written of how far
/// they came.
struct Row {
    sent: u32,
    ahead: u16,
    turns: u64,
    answers: &'static [u8],
    ended: Result<(), Halt>,
    put: usize,
    far: &'static str,
}

static ROWS: [Row; 8] = [
    // three status reads go out at once, since the poll has no more; of a device that takes 36
    // bytes two, then the third
    Row {
        ahead: 300,
        sent: 5,
        turns: 3,
        answers: b"\x06\x06\x06\x03\x06\x01\x06\x00\x06\x00",
        ended: Ok(()),
        put: 55,
        far: "\rstep 4 of 4, 13 of 13 bytes\n",
    },
    Row {
        ahead: 36,
        sent: 5,
        turns: 3,
        answers: b"\x06\x06\x06\x03\x06\x01\x15",
        ended: Err(Halt {
            step: 2,
            why: Reason::Exchange(Fault::Nak),
        }),
        put: 44,
        far: "",
    },
    Row {
        ahead: 0,
        sent: 5,
        turns: 3,
        answers: b"\x06\x06\x06\x03\x06\x01\x06\x00\x06\x00",
        ended: Ok(()),
        put: 55,
        far: "\rstep 4 of 4, 13 of 13 bytes\n",
    },
    Row {
        ahead: 0,
        sent: 5,
        turns: 2,
        answers: b"\x06\x06\x06\x03\x06\x01\x06\x00\x06\x00",
        ended: Err(Halt {
            step: 2,
            why: Reason::Busy,
        }),
        put: 36,
        far: "",
    },
    Row {
        ahead: 0,
        sent: 5,
        turns: 3,
        answers: b"\x06\x06\x06\x03\x06\x01\x06\x00\x06\x40",
        ended: Err(Halt {
            step: 3,
            why: Reason::Differs {
                place: 0,
                byte: 0x40,
            },
        }),
        put: 55,
        far: "",
    },
    Row {
        ahead: 0,
        sent: 4,
        turns: 3,
        answers: b"\x06\x06\x06\x03\x06\x01\x06\x00\x06\x00",
        ended: Err(Halt {
            step: 1,
            why: Reason::Carried,
        }),
        put: 8,
        far: "",
    },
    Row {
        ahead: 0,
        sent: 5,
        turns: 3,
        answers: b"\x15",
        ended: Err(Halt {
            step: 0,
            why: Reason::Exchange(Fault::Nak),
        }),
        put: 8,
        far: "",
    },
    Row {
        ahead: 0,
        sent: 5,
        turns: 3,
        answers: b"\x06\x06\x06",
        ended: Err(Halt {
            step: 2,
            why: Reason::Exchange(Fault::Silent),
        }),
        put: 28,
        far: "",
    },
];

/// The limits of a device that sends so many bytes, and takes so many before it answers.
fn limits_of(rt: &impl Abort, sent: u32, ahead: u16) -> Limits {
    holds(rt, "limits", 0 < sent && sent < 1 << 24);
    Limits {
        sent,
        asked: 1,
        ahead,
        pins: false,
    }
}

/// What a device does: most bytes that go out, how many it takes before it answers, what it
/// answers, how it ends, how many bytes it takes; and most status reads of a poll.
#[derive(Clone, Copy)]
struct Device<'a> {
    sent: u32,
    ahead: u16,
    answers: &'a [u8],
    end: End,
    room: usize,
    turns: u64,
}

/// How steps end on a device, what was put, and what was written of how far they came.
fn done_on(
    rt: &impl Abort,
    alloc: Global,
    steps: &[Step],
    device: &Device<'_>,
) -> (Result<(), Halt>, Vec<u8>, Vec<u8>) {
    let mut from = FromRead::new(Canned {
        answers: device.answers,
        silent: 0,
        end: device.end,
    });
    let mut to = IntoWrite::new(Held::new(alloc, device.room));
    let mut progress = IntoWrite::new(Held::new(alloc, 1000));
    let limits = limits_of(rt, device.sent, device.ahead);
    holds(rt, "doable", are_doable(steps));
    let turns = device.turns;
    let ended = do_steps(&mut from, &mut to, &limits, turns, steps, &mut progress);
    (ended, to.into_inner().bytes, progress.into_inner().bytes)
}

/// Steps end as a row says.
fn does(rt: &impl Abort, alloc: Global, steps: &[Step], row: &Row) {
    let device = Device {
        sent: row.sent,
        ahead: row.ahead,
        answers: row.answers,
        end: End::Silent,
        room: 1000,
        turns: row.turns,
    };
    let (ended, put, far) = done_on(rt, alloc, steps, &device);
    same(rt, "ended", ended, row.ended);
    holds(rt, "what was put", PUT.starts_with(put.as_slice()));
    same(rt, "how many were put", put.len(), row.put);
    holds(rt, "how far", far.as_slice() == row.far.as_bytes());
}

#[test]
fn does_steps(rt: HostRuntime) -> Result<(), Fail> {
    let steps = read(rt.alloc(), SCRIPT.as_bytes())?;
    for row in &ROWS {
        does(&rt, rt.alloc(), &steps, row);
    }
    Ok(())
}

/// A write enable, a program of 00h at 0, its poll, and two reads.
const JOB: &str =
    "norscript 1\nx 00000110\nx 0000001000000000000000000000000000000000\np 00000101........\n\
    v 00000011000000000000000000000000........ 00\nv 00000011000000000000000000000001........ ff\n\
    end 5\n";

/// What goes out on a device that takes many bytes: of the poll four status reads.
const JOB_PUT: &[u8] = b"\x13\x01\x00\x00\x00\x00\x00\x06\
    \x13\x05\x00\x00\x00\x00\x00\x02\x00\x00\x00\x00\
    \x13\x01\x00\x00\x01\x00\x00\x05\
    \x13\x01\x00\x00\x01\x00\x00\x05\
    \x13\x01\x00\x00\x01\x00\x00\x05\
    \x13\x01\x00\x00\x01\x00\x00\x05\
    \x13\x04\x00\x00\x01\x00\x00\x03\x00\x00\x00\
    \x13\x04\x00\x00\x01\x00\x00\x03\x00\x00\x01";

/// What it answers: it is busy for two status reads. How many bytes were put before the answers to
/// the reads.
const JOB_ANSWERS: &[u8; 14] = b"\x06\x06\x06\x03\x06\x01\x06\x00\x06\x00\x06\x00\x06\xff";

const FIRST_ROW: usize = 8 + 12 + 4 * 8;

/// The step that each byte of it answers, and why that stops where the lowest bit is another; None
/// where it doesn't.
static BYTES: [(u64, Option<Reason>); 14] = [
    (0, Some(Reason::Exchange(Fault::Differs))),
    (1, Some(Reason::Exchange(Fault::Differs))),
    (2, Some(Reason::Exchange(Fault::Differs))),
    // idle, and then busy again
    (2, Some(Reason::Busy)),
    (2, Some(Reason::Exchange(Fault::Differs))),
    (2, None),
    (2, Some(Reason::Exchange(Fault::Differs))),
    (2, None),
    (2, Some(Reason::Exchange(Fault::Differs))),
    (2, Some(Reason::Busy)),
    (3, Some(Reason::Exchange(Fault::Differs))),
    (3, Some(Reason::Differs { place: 0, byte: 1 })),
    (4, Some(Reason::Exchange(Fault::Differs))),
    (
        4,
        Some(Reason::Differs {
            place: 0,
            byte: 0xFE,
        }),
    ),
];

/// The job ends so on a device, and just the beginning of what goes out was put.
fn job_ends(
    rt: &impl Abort,
    alloc: Global,
    steps: &[Step],
    device: &Device<'_>,
    ended: Result<(), Halt>,
    put: usize,
) {
    let (found, held, _) = done_on(rt, alloc, steps, device);
    same(rt, "ended", found, ended);
    holds(rt, "what was put", JOB_PUT.starts_with(held.as_slice()));
    same(rt, "how many were put", held.len(), put);
}

/// A device that answers each command, in rows.
const ROWED: Device<'static> = Device {
    sent: 5,
    ahead: 300,
    answers: JOB_ANSWERS,
    end: End::Silent,
    room: 1000,
    turns: 4,
};

/// The answers end before this byte, or the reader fails there, or it is NAK, or a lie.
fn byte_fails(
    rt: &impl Abort,
    alloc: Global,
    steps: &[Step],
    at: usize,
    step: u64,
    lie: Option<Reason>,
) {
    let put = if step < 3 { FIRST_ROW } else { JOB_PUT.len() };
    let halt = |why: Reason| Err(Halt { step, why });
    let answers = JOB_ANSWERS.get(..at).unwrap_or(&[]);
    let cut = Device { answers, ..ROWED };
    job_ends(
        rt,
        alloc,
        steps,
        &cut,
        halt(Reason::Exchange(Fault::Silent)),
        put,
    );
    let fails = Device {
        end: End::Fails,
        ..cut
    };
    job_ends(
        rt,
        alloc,
        steps,
        &fails,
        halt(Reason::Exchange(Fault::Read)),
        put,
    );
    let mut changed = *JOB_ANSWERS;
    if let Some(byte) = changed.get_mut(at) {
        *byte ^= 1;
    }
    let lies = Device {
        answers: &changed,
        ..ROWED
    };
    let (ended, all) = match lie {
        Some(why) => (halt(why), put),
        None => (Ok(()), JOB_PUT.len()),
    };
    job_ends(rt, alloc, steps, &lies, ended, all);
    if lie == Some(Reason::Exchange(Fault::Differs)) {
        if let Some(byte) = changed.get_mut(at) {
            *byte = 0x15;
        }
        let refuses = Device {
            answers: &changed,
            ..ROWED
        };
        job_ends(
            rt,
            alloc,
            steps,
            &refuses,
            halt(Reason::Exchange(Fault::Nak)),
            put,
        );
    }
}

/// A job of rows, whole, and failing at each byte that comes and that goes out.
#[test]
fn rows_fail_at_each_byte(rt: HostRuntime) -> Result<(), Fail> {
    let steps = read(rt.alloc(), JOB.as_bytes())?;
    job_ends(&rt, rt.alloc(), &steps, &ROWED, Ok(()), JOB_PUT.len());
    for (at, (step, lie)) in BYTES.iter().enumerate() {
        byte_fails(&rt, rt.alloc(), &steps, at, *step, *lie);
    }
    for room in 0..JOB_PUT.len() {
        let device = Device { room, ..ROWED };
        let step = if room < FIRST_ROW { 0 } else { 3 };
        let why = Reason::Exchange(Fault::Write);
        job_ends(
            &rt,
            rt.alloc(),
            &steps,
            &device,
            Err(Halt { step, why }),
            room,
        );
    }
    Ok(())
}

/// How far steps came is written after each hundred, and at the end.
#[test]
fn reports_each_hundred(rt: HostRuntime) -> Result<(), Fail> {
    let mut text = Vec::from_slice(rt.alloc(), b"norscript 1\n")?;
    for _ in 0..101 {
        text.extend_from_slice(b"x 00000110\n")?;
    }
    text.extend_from_slice(b"end 101\n")?;
    let steps = read(rt.alloc(), &text)?;
    let device = Device {
        sent: 1,
        ahead: 0,
        answers: &[6; 101],
        end: End::Silent,
        room: 1000,
        turns: 1,
    };
    let (ended, put, far) = done_on(&rt, rt.alloc(), &steps, &device);
    same(&rt, "ended", ended, Ok(()));
    same(&rt, "how many were put", put.len(), 808);
    let lines = b"\rstep 100 of 101, 100 of 101 bytes\rstep 101 of 101, 101 of 101 bytes\n";
    holds(&rt, "how far", far.as_slice() == lines.as_slice());
    Ok(())
}

/// The program has five bytes.
#[test]
fn steps_are_carried(rt: HostRuntime) -> Result<(), Fail> {
    let steps = read(rt.alloc(), SCRIPT.as_bytes())?;
    let five = limits_of(&rt, 5, 0);
    same(&rt, "five", carried(&steps, &five), Ok(()));
    let four = limits_of(&rt, 4, 0);
    same(&rt, "four", carried(&steps, &four), Err(1));
    Ok(())
}

/// A verify of the status reads it once, also where it says busy.
#[test]
fn does_a_verify_of_the_status(rt: HostRuntime) -> Result<(), Fail> {
    let limits = limits_of(&rt, 1, 0);
    for step in &read(rt.alloc(), STATUS.as_bytes())? {
        let mut from = FromRead::new(Canned {
            answers: b"\x06\x01\x06\x00",
            silent: 0,
            end: End::Silent,
        });
        let mut to = IntoWrite::new(Held::new(rt.alloc(), 1000));
        holds(&rt, "doable", is_doable(step));
        let ended = do_step(&mut from, &mut to, &limits, 3, step);
        same(&rt, "ended", ended, Ok(()));
        let put = to.into_inner().bytes;
        let once = b"\x13\x01\x00\x00\x01\x00\x00\x05";
        holds(&rt, "once", put.as_slice() == once.as_slice());
    }
    Ok(())
}

/// What a device answers to the steps of [`SCRIPT`], a row each, busy for two status reads; and at
/// which step it does each byte.
const ANSWERS: &[u8; 10] = b"\x06\x06\x06\x03\x06\x01\x06\x00\x06\x00";

static STEPS: [u64; 10] = [0, 1, 2, 2, 2, 2, 2, 2, 3, 3];

/// A device that answers NAK, or another byte, in place of each ACK and of what is read, of which
/// the last is another byte of the chip.
#[test]
fn each_byte_lies(rt: HostRuntime) -> Result<(), Fail> {
    let steps = read(rt.alloc(), SCRIPT.as_bytes())?;
    for place in [0usize, 1, 2, 4, 6, 8] {
        for (byte, why) in [(0x15, Fault::Nak), (0x80, Fault::Differs)] {
            lies(
                &rt,
                rt.alloc(),
                &steps,
                (place, byte),
                Reason::Exchange(why),
            );
        }
    }
    for byte in [0x15, 0x80] {
        let why = Reason::Differs { place: 0, byte };
        lies(&rt, rt.alloc(), &steps, (9, byte), why);
    }
    Ok(())
}

/// A device that answers this byte at this place stops the steps for this reason.
fn lies(rt: &impl Abort, alloc: Global, steps: &[Step], (place, byte): (usize, u8), why: Reason) {
    let mut answers = *ANSWERS;
    if let Some(old) = answers.get_mut(place) {
        *old = byte;
    }
    let device = Device {
        sent: 256,
        ahead: 0,
        answers: &answers,
        end: End::Silent,
        room: 1000,
        turns: 3,
    };
    let step = STEPS.get(place).copied().unwrap_or(0);
    let (ended, put, _) = done_on(rt, alloc, steps, &device);
    same(rt, "ended", ended, Err(Halt { step, why }));
    holds(rt, "what was put", PUT.starts_with(put.as_slice()));
}

/// A read of the four bytes at 0.
const READ_FOUR: &str =
    "norscript 1\nv 00000011000000000000000000000000................................ ffffffff\n\
        end 1\n";

/// What goes out for it.
const READ_PUT: &[u8] = b"\x13\x04\x00\x00\x04\x00\x00\x03\x00\x00\x00";

/// Of an answer with another byte in it the rest is taken: the next command's answer comes next.
#[test]
fn an_answer_is_taken_whole(rt: HostRuntime) -> Result<(), Fail> {
    let limits = Limits {
        sent: 256,
        asked: 256,
        ahead: 0,
        pins: false,
    };
    for step in &read(rt.alloc(), READ_FOUR.as_bytes())? {
        let mut from = FromRead::new(Canned {
            answers: b"\x06\xFF\xFF\xFE\xFF\x06\x01\x00",
            silent: 0,
            end: End::Silent,
        });
        let mut to = IntoWrite::new(Held::new(rt.alloc(), 1000));
        holds(&rt, "doable", is_doable(step));
        let ended = do_step(&mut from, &mut to, &limits, 3, step);
        let place = 2;
        let byte = 0xFE;
        same(&rt, "ended", ended, Err(Reason::Differs { place, byte }));
        let put = to.into_inner().bytes;
        holds(&rt, "what was put", put.as_slice() == READ_PUT);
        let next = from.into_inner().answers;
        holds(&rt, "what comes next", next == b"\x06\x01\x00".as_slice());
    }
    Ok(())
}
