//! Rows of jobs: chips that are flashed, and how each ends.

use super::{
    ACK, AGAIN, FAR, FIRST_TWO, ID, IS, LESS, NONE, PLAN, READ, READ_ONE, Row, SECOND, TABLES, TWO,
    WAY, WHOLE,
};
use crate::line::ANSWERS;
use crate::scripts::{
    AT_END, BUT_ONE, CELL, DONE, GREETED, GREETING, HALF_SENT, MANY, PAST, REST, STATUS, STEPS,
};
use test_samples::End;
use test_samples::texts::IMAGE;

/// 01h at 0, and 126 times 00h from 0 on.
const ONE: &str = ":0100000001FE\n:00000001FF\n";

const LONG: &str = ":7E000000\
    000000000000000000000000000000000000000000000000000000000000000000000000000000000000\
    000000000000000000000000000000000000000000000000000000000000000000000000000000000000\
    000000000000000000000000000000000000000000000000000000000000000000000000000000000000\
    82\n:00000001FF\n";

/// The low half of the chip is read, as many bytes as the device gives.
const LOW: &[u8] = b"\x13\x04\x00\x00\x00\x10\x00\x03\x00\x00\x00";

/// Six bytes are read at 0.
const READ_SIX: &[u8] = b"\x13\x04\x00\x00\x06\x00\x00\x03\x00\x00\x00";

/// A write enable.
const ENABLE: &[u8] = b"\x13\x01\x00\x00\x00\x00\x00\x06";

/// The program of 00h at 0.
const PROGRAM: &[u8] = b"\x13\x05\x00\x00\x00\x00\x00\x02\x00\x00\x00\x00";

/// An erase of the 4 KiB at 0.
const ERASE: &[u8] = b"\x13\x04\x00\x00\x00\x00\x00\x20\x00\x00\x00";

/// The program of six bytes at 0.
const RESTORE: &[u8] = b"\x13\x0a\x00\x00\x00\x00\x00\x02\x00\x00\x00\x01\xff\xff\xff\xff\xa5";

/// The sixteen pages of the low half are read.
const PAGES: &[u8] = b"\x13\x04\x00\x00\x00\x01\x00\x03\x00\x00\x00\
    \x13\x04\x00\x00\x00\x01\x00\x03\x00\x01\x00\
    \x13\x04\x00\x00\x00\x01\x00\x03\x00\x02\x00\
    \x13\x04\x00\x00\x00\x01\x00\x03\x00\x03\x00\
    \x13\x04\x00\x00\x00\x01\x00\x03\x00\x04\x00\
    \x13\x04\x00\x00\x00\x01\x00\x03\x00\x05\x00\
    \x13\x04\x00\x00\x00\x01\x00\x03\x00\x06\x00\
    \x13\x04\x00\x00\x00\x01\x00\x03\x00\x07\x00\
    \x13\x04\x00\x00\x00\x01\x00\x03\x00\x08\x00\
    \x13\x04\x00\x00\x00\x01\x00\x03\x00\x09\x00\
    \x13\x04\x00\x00\x00\x01\x00\x03\x00\x0a\x00\
    \x13\x04\x00\x00\x00\x01\x00\x03\x00\x0b\x00\
    \x13\x04\x00\x00\x00\x01\x00\x03\x00\x0c\x00\
    \x13\x04\x00\x00\x00\x01\x00\x03\x00\x0d\x00\
    \x13\x04\x00\x00\x00\x01\x00\x03\x00\x0e\x00\
    \x13\x04\x00\x00\x00\x01\x00\x03\x00\x0f\x00";

/// Six bytes before, and after.
const OLD: &[u8] = b"\x00\xff\xff\xff\xff\xa5";

const NEW: &[u8] = b"\x01\xff\xff\xff\xff\xa5";

/// FFh to the end of a page of which six bytes came, and of a half of which six and four came.
const AFTER_SIX: &[u8] = &[0xFF; 250];

const BUT_SIX: &[u8] = &[0xFF; 4090];

const BUT_FOUR: &[u8] = &[0xFF; 4092];

/// 00h is programmed at 0 of an empty chip.
const GOOD: Row = Row {
    hex: IMAGE,
    old: None,
    dry: false,
    free: true,
    opened: GREETED,
    parts: 12,
    opening: GREETING,
    tested: ANSWERS,
    empty: true,
    put: &[STEPS, READ_ONE, AGAIN, PAST],
    answers: &[
        DONE,
        b"\x06\x00",
        b"\x06\x00\xff",
        ACK,
        MANY,
        ACK,
        LESS,
        b"\x06\x00",
        BUT_ONE,
        ACK,
        MANY,
    ],
    released: b"\x15\x00",
    released_so: ACK,
    end: End::Silent,
    cut: false,
    saved: Some(b""),
    plan: PLAN,
    way: WAY,
    far: FAR,
    line: b"ok 4\n",
};

/// Work that is done.
pub(super) static DONES: [Row; 4] = [
    GOOD,
    // a block is erased, and what it held beside the byte is restored
    Row {
        hex: ONE,
        empty: false,
        put: &[
            STATUS, ID, TABLES, WHOLE, AGAIN, PAST, ID, ENABLE, ERASE, STATUS, ENABLE, RESTORE,
            STATUS, PAGES, AGAIN, PAST,
        ],
        answers: &[
            b"\x06\x00",
            IS,
            NONE,
            ACK,
            OLD,
            BUT_SIX,
            ACK,
            MANY,
            b"\x06\x00\xff",
            b"\x06\xff\xff\xff\xa5",
            BUT_FOUR,
            ACK,
            LESS,
            ACK,
            OLD,
            BUT_SIX,
            ACK,
            MANY,
            IS,
            DONE,
            DONE,
            ACK,
            NEW,
            AFTER_SIX,
            ACK,
            CELL,
            ACK,
            CELL,
            ACK,
            CELL,
            ACK,
            CELL,
            ACK,
            CELL,
            ACK,
            CELL,
            ACK,
            CELL,
            ACK,
            CELL,
            ACK,
            CELL,
            ACK,
            CELL,
            ACK,
            CELL,
            ACK,
            CELL,
            ACK,
            CELL,
            ACK,
            CELL,
            ACK,
            CELL,
            b"\x06\x01\xff",
            b"\x06\xff\xff\xff\xa5",
            BUT_FOUR,
            ACK,
            LESS,
            ACK,
            NEW,
            BUT_SIX,
            ACK,
            MANY,
        ],
        saved: Some(OLD),
        plan: b"erase 00000000 00001000 20\nbecause 00000000 00000000\nprogram 00000000 6\n\
            strategy S2\nsteps 22\nerases 1\nerased 4096\nprograms 1\nignored 0\n",
        far: b"\rstep 22 of 22, 4180 of 4180 bytes\n",
        line: b"ok 22\n",
        ..GOOD
    },
    // it stopped after that erase: what the image doesn't give comes from the older dump
    Row {
        hex: ONE,
        old: Some((OLD, 8186)),
        put: &[ENABLE, RESTORE, STATUS, READ_SIX, AGAIN, PAST],
        answers: &[
            DONE,
            ACK,
            NEW,
            b"\x06\x01\xff",
            b"\x06\xff\xff\xff\xa5",
            BUT_FOUR,
            ACK,
            LESS,
            ACK,
            NEW,
            BUT_SIX,
            ACK,
            MANY,
        ],
        plan: b"program 00000000 6\nstrategy S2\nsteps 4\n\
            erases 0\nerased 0\nprograms 1\nignored 0\n",
        far: b"\rstep 4 of 4, 23 of 23 bytes\n",
        ..GOOD
    },
    // the chip holds it, and is still read back
    Row {
        empty: false,
        put: &[STATUS, ID, TABLES, WHOLE, AGAIN, PAST, ID, AGAIN, PAST],
        answers: &[
            b"\x06\x00",
            IS,
            NONE,
            b"\x06\x00",
            BUT_ONE,
            ACK,
            MANY,
            b"\x06\x00\xff",
            ACK,
            MANY,
            ACK,
            LESS,
            b"\x06\x00",
            BUT_ONE,
            ACK,
            MANY,
            IS,
            b"\x06\x00\xff",
            ACK,
            MANY,
            ACK,
            LESS,
            b"\x06\x00",
            BUT_ONE,
            ACK,
            MANY,
        ],
        saved: Some(b"\x00"),
        plan: b"strategy S2\nsteps 0\nerases 0\nerased 0\nprograms 0\nignored 0\n",
        way: b"",
        far: b"",
        line: b"ok 0\n",
        ..GOOD
    },
];

/// Work that isn't begun: only reads go out.
const KEPT: Row = Row {
    put: &[],
    answers: &[],
    far: b"",
    ..GOOD
};

/// Of a chip that was read.
pub(super) static KEPTS: [Row; 4] = [
    // only the plan is wanted
    Row {
        dry: true,
        way: b"",
        line: b"",
        saved: None,
        ..KEPT
    },
    // a program of more bytes than the device sends
    Row {
        hex: LONG,
        plan: b"program 00000000 126\nstrategy S2\nsteps 4\n\
            erases 0\nerased 0\nprograms 1\nignored 0\n",
        line: b"failed at 1 carried\n",
        ..KEPT
    },
    // a dump of another chip
    Row {
        old: Some((OLD, 8185)),
        plan: b"",
        way: b"",
        line: b"norprog: content size\n",
        ..KEPT
    },
    // a file of that name is there
    Row {
        free: false,
        saved: None,
        plan: b"",
        way: b"",
        line: b"norprog: file before\n",
        ..KEPT
    },
];

/// Of one that isn't read, or that can't take the work: nothing is saved or printed.
const UNLIKE: Row = Row {
    empty: false,
    saved: None,
    plan: b"",
    way: b"",
    ..KEPT
};

pub(super) static UNLIKES: [Row; 15] = [
    // block protection
    Row {
        put: READ,
        answers: &[
            b"\x06\x0c",
            IS,
            NONE,
            ACK,
            MANY,
            ACK,
            MANY,
            TWO,
            ACK,
            MANY,
            ACK,
            LESS,
            ACK,
            MANY,
            ACK,
            MANY,
            IS,
        ],
        line: b"closed 0c\n",
        ..UNLIKE
    },
    // another identification at the end; none
    Row {
        put: READ,
        answers: &[
            b"\x06\x00",
            IS,
            NONE,
            ACK,
            MANY,
            ACK,
            MANY,
            TWO,
            ACK,
            MANY,
            ACK,
            LESS,
            ACK,
            MANY,
            ACK,
            MANY,
            b"\x06\xef\x40\x18",
        ],
        line: b"unlike id ef4018\n",
        ..UNLIKE
    },
    Row {
        put: &[STATUS, ID],
        answers: &[b"\x06\x00\x06\xff\xff\xff"],
        line: b"unlike id ffffff\n",
        ..UNLIKE
    },
    // another byte at the second reading
    Row {
        put: &[STATUS, ID, TABLES, WHOLE, AGAIN],
        answers: &[
            b"\x06\x00",
            IS,
            NONE,
            ACK,
            MANY,
            ACK,
            MANY,
            TWO,
            ACK,
            MANY,
            b"\x06\xff\xff\xff\xfe",
            BUT_SIX,
        ],
        line: b"unlike at 00001005\n",
        ..UNLIKE
    },
    // a larger chip, which gives another byte at 8 KiB than at 0
    Row {
        put: &[STATUS, ID, TABLES, WHOLE, AGAIN, AT_END],
        answers: &[
            b"\x06\x00",
            IS,
            NONE,
            ACK,
            MANY,
            ACK,
            MANY,
            TWO,
            ACK,
            MANY,
            ACK,
            LESS,
            b"\x06\x00",
            BUT_ONE,
        ],
        line: b"unlike at 00002000\n",
        ..UNLIKE
    },
    // NAK, there and at the identification; silence in the first reading
    Row {
        put: &[STATUS, ID, TABLES, WHOLE, FIRST_TWO],
        answers: &[b"\x06\x00", IS, NONE, ACK, MANY, ACK, MANY, b"\x15"],
        line: b"unlike nak\n",
        ..UNLIKE
    },
    Row {
        put: &[STATUS, ID],
        answers: &[b"\x06\x00\x15"],
        line: b"unlike nak\n",
        ..UNLIKE
    },
    Row {
        put: &[STATUS, ID, TABLES, LOW],
        answers: &[b"\x06\x00", IS, NONE, ACK, CELL],
        released_so: b"",
        line: b"unlike silent\n",
        ..UNLIKE
    },
    // the reader fails there
    Row {
        put: &[STATUS, ID, TABLES, LOW],
        answers: &[b"\x06\x00", IS, NONE, ACK, CELL],
        released_so: b"",
        end: End::Fails,
        line: b"unlike read\n",
        ..UNLIKE
    },
    // the writer fails in the middle of the identification: then nothing more goes out
    Row {
        put: &[STATUS, b"\x13\x01\x00"],
        answers: &[b"\x06\x00"],
        released: b"",
        released_so: b"",
        cut: true,
        line: b"unlike write\n",
        ..UNLIKE
    },
    // silence at the status; a chip that stays busy
    Row {
        put: &[STATUS],
        answers: &[],
        released_so: b"",
        line: b"unlike silent\n",
        ..UNLIKE
    },
    Row {
        put: &[STATUS, STATUS, STATUS],
        answers: &[b"\x06\x01\x06\x01\x06\x03"],
        line: b"unlike busy\n",
        ..UNLIKE
    },
    // LF is sent as CR LF; a byte is dropped; nothing is there
    Row {
        parts: 4,
        tested: b"\x06\x15",
        put: &[],
        answers: &[],
        line: b"norprog: device line\n",
        ..UNLIKE
    },
    Row {
        parts: 2,
        tested: b"",
        put: &[],
        answers: &[],
        released_so: b"",
        line: b"norprog: device line\n",
        ..UNLIKE
    },
    Row {
        opened: b"\x10\x10",
        parts: 0,
        opening: b"",
        tested: b"",
        put: &[],
        answers: &[],
        released: b"",
        released_so: b"",
        line: b"norprog: device silent\n",
        ..UNLIKE
    },
];

/// Work that stops after a step was sent.
const HALF: Row = Row {
    put: &[STEPS, READ_ONE, AGAIN],
    far: b"",
    ..GOOD
};

pub(super) static HALVES: [Row; 12] = [
    // NAK at the write enable; silence at the program
    Row {
        put: &[ENABLE],
        answers: &[b"\x15"],
        line: b"failed at 0 nak\n",
        ..HALF
    },
    Row {
        put: &[ENABLE, PROGRAM],
        answers: &[ACK],
        released_so: b"",
        line: b"failed at 1 silent\n",
        ..HALF
    },
    // the reader fails there
    Row {
        put: &[ENABLE, PROGRAM],
        answers: &[ACK],
        released_so: b"",
        end: End::Fails,
        line: b"failed at 1 read\n",
        ..HALF
    },
    // a poll that never ends
    Row {
        put: &[STEPS, STATUS, STATUS],
        answers: &[b"\x06\x06\x06\x01\x06\x01\x06\x03"],
        line: b"wrong 6 at 2\n",
        ..HALF
    },
    // another byte than was programmed
    Row {
        put: &[STEPS, READ_ONE],
        answers: &[DONE, b"\x06\x80"],
        line: b"failed at 3 differs at 00000000 chip 80 want 00\n",
        ..HALF
    },
    // all steps are done, and a byte that none of them touches is another: a chip of 4 KiB
    Row {
        put: &[STEPS, READ_ONE, FIRST_TWO, SECOND],
        answers: &[DONE, b"\x06\x00", b"\x06\x00\xff", ACK, LESS, b"\x00\xff"],
        far: FAR,
        line: b"failed at 4 differs at 00001000 chip 00 want ff\n",
        ..HALF
    },
    // a larger one, which has no such byte at 8 KiB
    Row {
        put: &[STEPS, READ_ONE, AGAIN, AT_END],
        answers: &[
            DONE,
            b"\x06\x00",
            b"\x06\x00\xff",
            ACK,
            MANY,
            ACK,
            LESS,
            ACK,
            MANY,
        ],
        far: FAR,
        line: b"failed at 4 differs at 00002000 chip ff want 00\n",
        ..HALF
    },
    // NAK, silence, and a byte that serprog hasn't, as the chip is read back
    Row {
        put: &[STEPS, READ_ONE, FIRST_TWO, SECOND],
        answers: &[DONE, b"\x06\x00", b"\x06\x00\xff", b"\x15"],
        far: FAR,
        line: b"failed at 4 nak\n",
        ..HALF
    },
    Row {
        put: &[STEPS, READ_ONE, FIRST_TWO, SECOND],
        answers: &[DONE, b"\x06\x00", b"\x06\x00\xff", ACK, REST],
        released_so: b"",
        far: FAR,
        line: b"failed at 4 silent\n",
        ..HALF
    },
    Row {
        put: &[STEPS, READ_ONE, FIRST_TWO],
        answers: &[DONE, b"\x06\x00", b"\x07"],
        far: FAR,
        line: b"failed at 4 differs\n",
        ..HALF
    },
    // the writer fails in the program, and as the chip is read back: then nothing more goes out
    Row {
        put: &[HALF_SENT],
        answers: &[ACK],
        released: b"",
        released_so: b"",
        cut: true,
        line: b"failed at 1 write\n",
        ..HALF
    },
    Row {
        put: &[STEPS, READ_ONE, b"\x13\x04\x00"],
        answers: &[DONE, b"\x06\x00"],
        released: b"",
        released_so: b"",
        cut: true,
        far: FAR,
        line: b"failed at 4 write\n",
        ..HALF
    },
];
