//! Rows of plays: scripts on devices, and how each ends.

use super::{
    AT_END, BUT_ONE, CELL, DONE, FIRST, GOOD, HALF_SENT, MANY, MIDDLE, PAST, REST, Row, STATE,
    STATUS, STEPS,
};
use test_samples::End;
use test_samples::sfdp::SMALL;

/// What a device answers that sends one byte at once, to which no value goes out in the test of the
/// line, to the end of that test; what goes out to it.
const NARROW: &[u8] = b"\x15\x06\x06\x01\x00\x06\x06\x01\x2e\
    \x00\x00\x00\x00\x00\x00\x00\x00\x00\x00\x00\x00\x00\x00\x00\
    \x00\x00\x00\x00\x00\x00\x00\x00\x00\x00\x00\x00\x00\x00\x06\
    \x06\x01\x00\x00\x06\x00\x10\x00\x06\
    \x06\x15\x06";

const TO_NARROW: &[u8] = b"\x10\x01\x02\x12\x08\x08\x11\x15\x01\x00\x10";

/// What one answers to the handshake that doesn't offer 15h; what goes out to it.
const PINLESS: &[u8] = b"\x15\x06\x06\x01\x00\x06\x06\x01\x0e\
    \x00\x00\x00\x00\x00\x00\x00\x00\x00\x00\x00\x00\x00\x00\x00\
    \x00\x00\x00\x00\x00\x00\x00\x00\x00\x00\x00\x00\x00\x00\x06\
    \x06\x81\x00\x00\x06\x00\x10\x00";

const TO_PINLESS: &[u8] = b"\x10\x01\x02\x12\x08\x08\x11";

/// A status read of each register.
const REGISTERS: &[u8] = b"\x13\x01\x00\x00\x01\x00\x00\x05\
    \x13\x01\x00\x00\x01\x00\x00\x35\
    \x13\x01\x00\x00\x01\x00\x00\x15";

/// 80 bytes of SFDP are read from 0 on: 5Ah, the address, and a byte for the dummy clocks.
const TABLES: &[u8] = b"\x13\x05\x00\x00\x50\x00\x00\x5a\x00\x00\x00\x00";

/// The last cell of 8 KiB is read, the one before that of [`MIDDLE`], and both of these.
const LAST: &[u8] = b"\x13\x04\x00\x00\x00\x01\x00\x03\x00\x1f\x00";

const BEFORE_IT: &[u8] = b"\x13\x04\x00\x00\x00\x01\x00\x03\x00\x0f\x00";

const BOTH: &[u8] = b"\x13\x04\x00\x00\x00\x02\x00\x03\x00\x0f\x00";

/// A program of 00h at 0, and a read of the two bytes there; what goes out for that.
const VERIFY: &str =
    "norscript 1\nx 00000110\nx 0000001000000000000000000000000000000000\np 00000101........\n\
    v 00000011000000000000000000000000................ 00ff\nend 4\n";

const READ_TWO: &[u8] = b"\x13\x04\x00\x00\x02\x00\x00\x03\x00\x00\x00";

/// An erase of the 4 KiB at 1000h, and then a program of 00h at FFFh and, round in its page, at
/// F00h.
const TWO: &str =
    "norscript 1\nx 00000110\nx 00100000000000000001000000000000\np 00000101........\n\
    x 00000110\nx 000000100000000000001111111111110000000000000000\n\
    p 00000101........\nend 6\n";

/// The 256 bytes at F00h and the 4 KiB after them lie side by side, and the device gives 4096 bytes
/// at once.
const TWO_CELLS: &[u8] = b"\x13\x04\x00\x00\x00\x10\x00\x03\x00\x0f\x00\
    \x13\x04\x00\x00\x00\x01\x00\x03\x00\x1f\x00";

const TWO_STEPS: &[u8] = b"\x13\x01\x00\x00\x00\x00\x00\x06\
    \x13\x04\x00\x00\x00\x00\x00\x20\x00\x10\x00\
    \x13\x01\x00\x00\x01\x00\x00\x05\
    \x13\x01\x00\x00\x00\x00\x00\x06\
    \x13\x06\x00\x00\x00\x00\x00\x02\x00\x0f\xff\x00\x00\
    \x13\x01\x00\x00\x01\x00\x00\x05";

const TWO_DONE: &[u8] = b"\x06\x06\x06\x00\x06\x06\x06\x00";

/// 3840 bytes of FFh, and 254.
const AFTER_TWO: &[u8] = &[0xFF; 3840];

const BETWEEN: &[u8] = &[0xFF; 254];

/// A read of two bytes of the status.
const READS_STATUS: &str = "norscript 1\nx 00000101................\nend 1\n";

const STATUS_TWICE: &[u8] = b"\x13\x01\x00\x00\x02\x00\x00\x05";

/// A play that isn't begun.
const UNLIKE: Row = Row { code: 1, ..GOOD };

/// One that stops after steps were sent.
const HALF: Row = Row {
    put: &[STATUS, FIRST, PAST, STEPS, FIRST],
    code: 3,
    told: &[STATE],
    ..GOOD
};

/// One that isn't begun for what the line does.
const LINE: Row = Row {
    code: 1,
    line: b"",
    ..GOOD
};

/// Plays that are done.
pub(super) static DONES: [Row; 8] = [
    GOOD,
    // nothing is asked of a chip that is trusted
    Row {
        trust: true,
        put: &[STEPS],
        answers: &[DONE],
        line: b"ok 3\n",
        ..GOOD
    },
    // it is busy for two status reads, and its other bits are clear once it is idle
    Row {
        put: &[
            STATUS, STATUS, STATUS, FIRST, PAST, STEPS, FIRST, MIDDLE, PAST,
        ],
        answers: &[
            b"\x06\x01\x06\x03\x06\x00\x06",
            CELL,
            b"\x06",
            MANY,
            b"\x06",
            MANY,
            DONE,
            b"\x06\x00",
            REST,
            b"\x06",
            CELL,
            b"\x06\x00",
            BUT_ONE,
            b"\x06",
            MANY,
        ],
        ..GOOD
    },
    // the last byte that isn't FFh is compared, though no step touches it, and the one 4 KiB below
    Row {
        last: 0x5A,
        put: &[
            STATUS, FIRST, BEFORE_IT, LAST, PAST, STEPS, FIRST, BOTH, LAST, PAST,
        ],
        answers: &[
            b"\x06\x00\x06",
            CELL,
            b"\x06",
            CELL,
            b"\x06",
            REST,
            b"\x5a\x06",
            MANY,
            b"\x06",
            BUT_ONE,
            b"\x5a",
            DONE,
            b"\x06\x00",
            REST,
            b"\x06",
            CELL,
            CELL,
            b"\x06",
            REST,
            b"\x5a\x06\x00",
            BUT_ONE,
            b"\x06",
            BUT_ONE,
            b"\x5a",
        ],
        line: b"ok 3\n",
        ..GOOD
    },
    // cells side by side are read at once, as many bytes as the device gives
    Row {
        text: TWO,
        put: &[STATUS, TWO_CELLS, PAST, TWO_STEPS, TWO_CELLS, PAST],
        answers: &[
            b"\x06\x00\x06",
            MANY,
            b"\x06",
            CELL,
            b"\x06",
            MANY,
            b"\x06",
            MANY,
            TWO_DONE,
            b"\x06\x00",
            BETWEEN,
            b"\x00",
            AFTER_TWO,
            b"\x06",
            CELL,
            b"\x06",
            AFTER_TWO,
            b"\x00",
            BETWEEN,
            b"\x00\x06",
            MANY,
        ],
        line: b"blank\nok 6\n",
        ..GOOD
    },
    // the chip has the tables of the file
    Row {
        tables: true,
        put: &[STATUS, TABLES, FIRST, PAST, STEPS, FIRST, MIDDLE, PAST],
        answers: &[
            b"\x06\x00\x06",
            &SMALL,
            b"\x06",
            CELL,
            b"\x06",
            MANY,
            b"\x06",
            MANY,
            DONE,
            b"\x06\x00",
            REST,
            b"\x06",
            CELL,
            b"\x06\x00",
            BUT_ONE,
            b"\x06",
            MANY,
        ],
        ..GOOD
    },
    // a W25Q256JV tells three registers, and has its quad setting as it is said
    Row {
        tables: true,
        part: Some("w25q256jv"),
        status: Some("000200"),
        put: &[REGISTERS, TABLES, FIRST, PAST, STEPS, FIRST, MIDDLE, PAST],
        answers: &[
            b"\x06\x00\x06\x02\x06\x00\x06",
            &SMALL,
            b"\x06",
            CELL,
            b"\x06",
            MANY,
            b"\x06",
            MANY,
            DONE,
            b"\x06\x00",
            REST,
            b"\x06",
            CELL,
            b"\x06\x00",
            BUT_ONE,
            b"\x06",
            MANY,
        ],
        ..GOOD
    },
    // a device that doesn't drive the pins isn't asked to let them go
    Row {
        opened: TO_PINLESS,
        opening: PINLESS,
        released: b"",
        released_so: b"",
        ..GOOD
    },
];

/// Plays that aren't begun: nothing that changes the chip goes out.
pub(super) static UNLIKES: [Row; 17] = [
    Row {
        put: &[STATUS, STATUS, STATUS],
        answers: &[b"\x06\x01\x06\x01\x06\x03"],
        line: b"unlike busy\n",
        ..UNLIKE
    },
    // an open line isn't waited for
    Row {
        put: &[STATUS],
        answers: &[b"\x06\xff"],
        line: b"unlike status ff\n",
        ..UNLIKE
    },
    // block protection; the write enable latch
    Row {
        put: &[STATUS],
        answers: &[b"\x06\x0c"],
        line: b"unlike status 0c\n",
        ..UNLIKE
    },
    Row {
        put: &[STATUS],
        answers: &[b"\x06\x02"],
        line: b"unlike status 02\n",
        ..UNLIKE
    },
    // of a W25Q256JV: a quad setting that isn't said; four-byte mode; whole-chip protection by S14;
    // suspended
    Row {
        tables: true,
        part: Some("w25q256jv"),
        put: &[REGISTERS],
        answers: &[b"\x06\x00\x06\x02\x06\x00"],
        line: b"unlike status 000200\n",
        ..UNLIKE
    },
    Row {
        tables: true,
        part: Some("w25q256jv"),
        put: &[REGISTERS],
        answers: &[b"\x06\x00\x06\x00\x06\x01"],
        line: b"unlike status 010000\n",
        ..UNLIKE
    },
    Row {
        tables: true,
        part: Some("w25q256jv"),
        put: &[REGISTERS],
        answers: &[b"\x06\x00\x06\x40\x06\x00"],
        line: b"unlike status 004000\n",
        ..UNLIKE
    },
    Row {
        tables: true,
        part: Some("w25q256jv"),
        put: &[REGISTERS],
        answers: &[b"\x06\x00\x06\x80\x06\x00"],
        line: b"unlike status 008000\n",
        ..UNLIKE
    },
    // the chip has no tables
    Row {
        tables: true,
        put: &[STATUS, TABLES],
        answers: &[b"\x06\x00\x06", &[0xFF; 80]],
        line: b"unlike tables at 00000000 chip ff file 53\n",
        ..UNLIKE
    },
    // it holds other bytes where steps touch it, and where they don't
    Row {
        put: &[STATUS, FIRST],
        answers: &[b"\x06\x00\x06\xff\xfe", BETWEEN],
        line: b"unlike differs at 00000001 chip fe dump ff\n",
        ..UNLIKE
    },
    Row {
        last: 0x5A,
        put: &[STATUS, FIRST, BEFORE_IT, LAST],
        answers: &[b"\x06\x00\x06", CELL, b"\x06", CELL, b"\x06", CELL],
        line: b"unlike differs at 00001fff chip ff dump 5a\n",
        ..UNLIKE
    },
    // it is larger: at 8 KiB it gives another byte than at 0, and in the other half
    Row {
        put: &[STATUS, FIRST, AT_END],
        answers: &[b"\x06\x00\x06", CELL, b"\x06\x00", BUT_ONE],
        line: b"unlike differs at 00002000 chip 00 dump ff\n",
        ..UNLIKE
    },
    Row {
        last: 0x5A,
        put: &[STATUS, FIRST, BEFORE_IT, LAST, PAST],
        answers: &[
            b"\x06\x00\x06",
            CELL,
            b"\x06",
            CELL,
            b"\x06",
            REST,
            b"\x5a\x06",
            MANY,
            b"\x06",
            MANY,
        ],
        line: b"unlike differs at 00003fff chip ff dump 5a\n",
        ..UNLIKE
    },
    // the device refuses, falls silent, fails, or answers none of serprog's bytes
    Row {
        put: &[STATUS],
        answers: &[b"\x15"],
        line: b"unlike nak\n",
        ..UNLIKE
    },
    Row {
        put: &[STATUS, FIRST],
        answers: &[b"\x06\x00\x06", REST],
        released_so: b"",
        line: b"unlike silent\n",
        ..UNLIKE
    },
    Row {
        put: &[STATUS, FIRST],
        answers: &[b"\x06\x00\x06", REST],
        released_so: b"",
        end: End::Fails,
        line: b"unlike read\n",
        ..UNLIKE
    },
    Row {
        put: &[STATUS, FIRST],
        answers: &[b"\x06\x00\x07"],
        line: b"unlike differs\n",
        ..UNLIKE
    },
];

/// Plays that stop after steps were sent.
pub(super) static HALVES: [Row; 11] = [
    // a chip of 4 KiB, whose addresses wrap: the byte that was programmed is at 1000h too
    Row {
        put: &[STATUS, FIRST, PAST, STEPS, FIRST, MIDDLE],
        answers: &[
            b"\x06\x00\x06",
            CELL,
            b"\x06",
            MANY,
            b"\x06",
            MANY,
            DONE,
            b"\x06\x00",
            REST,
            b"\x06\x00",
            REST,
        ],
        line: b"failed at 3 differs at 00001000 chip 00 want ff\n",
        ..HALF
    },
    // a larger one, which has no such byte at 8 KiB
    Row {
        put: &[STATUS, FIRST, PAST, STEPS, FIRST, MIDDLE, AT_END],
        answers: &[
            b"\x06\x00\x06",
            CELL,
            b"\x06",
            MANY,
            b"\x06",
            MANY,
            DONE,
            b"\x06\x00",
            REST,
            b"\x06",
            CELL,
            b"\x06",
            MANY,
        ],
        line: b"failed at 3 differs at 00002000 chip ff want 00\n",
        ..HALF
    },
    // a chip that takes no program, where the script doesn't read it back
    Row {
        answers: &[
            b"\x06\x00\x06",
            CELL,
            b"\x06",
            MANY,
            b"\x06",
            MANY,
            DONE,
            b"\x06",
            CELL,
        ],
        line: b"failed at 3 differs at 00000000 chip ff want 00\n",
        ..HALF
    },
    // where it does, in its fourth step: the rest of the answer is taken
    Row {
        text: VERIFY,
        put: &[STATUS, FIRST, PAST, STEPS, READ_TWO],
        answers: &[
            b"\x06\x00\x06",
            CELL,
            b"\x06",
            MANY,
            b"\x06",
            MANY,
            DONE,
            b"\x06\x80\xff",
        ],
        line: b"failed at 3 differs at 00000000 chip 80 want 00\n",
        ..HALF
    },
    // and a byte beside the program: nothing was to change there
    Row {
        answers: &[
            b"\x06\x00\x06",
            CELL,
            b"\x06",
            MANY,
            b"\x06",
            MANY,
            DONE,
            b"\x06\x00\xf0",
            BETWEEN,
        ],
        line: b"failed at 3 differs at 00000001 chip f0 want ff\n",
        ..HALF
    },
    // no byte of the chip's content
    Row {
        text: READS_STATUS,
        put: &[STATUS, PAST, STATUS_TWICE],
        answers: &[b"\x06\x00\x06", MANY, b"\x06", MANY, b"\x06\x00\x80"],
        line: b"failed at 0 differs chip 80 want 00\n",
        ..HALF
    },
    // a poll that never ends, a refusal, silence, and a byte that serprog hasn't
    Row {
        limit: "1",
        put: &[STATUS, FIRST, PAST, STEPS],
        answers: &[
            b"\x06\x00\x06",
            CELL,
            b"\x06",
            MANY,
            b"\x06",
            MANY,
            b"\x06\x06\x06\x01",
        ],
        line: b"wrong 6 at 2\n",
        ..HALF
    },
    Row {
        put: &[STATUS, FIRST, PAST, STEPS],
        answers: &[
            b"\x06\x00\x06",
            CELL,
            b"\x06",
            MANY,
            b"\x06",
            MANY,
            b"\x06\x06\x15",
        ],
        line: b"failed at 2 nak\n",
        ..HALF
    },
    Row {
        answers: &[
            b"\x06\x00\x06",
            CELL,
            b"\x06",
            MANY,
            b"\x06",
            MANY,
            DONE,
            b"\x06\x00",
        ],
        released_so: b"",
        line: b"failed at 3 silent\n",
        ..HALF
    },
    Row {
        put: &[STATUS, FIRST, PAST, STEPS],
        answers: &[
            b"\x06\x00\x06",
            CELL,
            b"\x06",
            MANY,
            b"\x06",
            MANY,
            b"\x06\x06\x07",
        ],
        line: b"failed at 2 differs\n",
        ..HALF
    },
    // standard output is full: that is reported after what to do
    Row {
        answers: &[
            b"\x06\x00\x06",
            CELL,
            b"\x06",
            MANY,
            b"\x06",
            MANY,
            DONE,
            b"\x06",
            CELL,
        ],
        room: 8,
        line: b"failed a",
        told: &[STATE, b"norprog: write\n"],
        ..HALF
    },
];

/// The writer fails in the middle of a request: nothing more goes out, not even what lets the pins
/// go.
pub(super) static CUTS: [Row; 5] = [
    // in the test of the line, after the head of its first operation
    Row {
        parts: 1,
        tested: b"",
        put: &[],
        answers: &[],
        released: b"",
        released_so: b"",
        cut: true,
        told: &[b"norprog: device write\n"],
        ..LINE
    },
    // as the status is asked for, and as the chip is compared
    Row {
        put: &[b"\x13\x01\x00"],
        answers: &[],
        released: b"",
        released_so: b"",
        cut: true,
        line: b"unlike write\n",
        ..UNLIKE
    },
    Row {
        put: &[STATUS, b"\x13\x04\x00\x00\x00\x01\x00\x03\x00\x00"],
        answers: &[b"\x06\x00"],
        released: b"",
        released_so: b"",
        cut: true,
        line: b"unlike write\n",
        ..UNLIKE
    },
    // in the program, and as the chip is read back
    Row {
        put: &[STATUS, FIRST, PAST, HALF_SENT],
        answers: &[b"\x06\x00\x06", CELL, b"\x06", MANY, b"\x06", MANY, b"\x06"],
        released: b"",
        released_so: b"",
        cut: true,
        line: b"failed at 1 write\n",
        ..HALF
    },
    Row {
        put: &[STATUS, FIRST, PAST, STEPS, b"\x13\x04\x00\x00\x00"],
        answers: &[b"\x06\x00\x06", CELL, b"\x06", MANY, b"\x06", MANY, DONE],
        released: b"",
        released_so: b"",
        cut: true,
        line: b"failed at 3 write\n",
        ..HALF
    },
];

/// Plays that end at what a device can't do, and at a line that changes what goes out: nothing that
/// a chip doesn't ignore goes out.
pub(super) static LINES: [Row; 5] = [
    // a device of one byte in an operation programs nothing
    Row {
        opened: TO_NARROW,
        parts: 0,
        opening: NARROW,
        tested: b"",
        put: &[],
        answers: &[],
        line: b"failed at 1 carried\n",
        ..LINE
    },
    // LF is sent as CR LF
    Row {
        parts: 4,
        tested: b"\x06\x15",
        put: &[],
        answers: &[],
        told: &[b"norprog: device line\n"],
        ..LINE
    },
    // a byte is dropped
    Row {
        parts: 2,
        tested: b"",
        put: &[],
        answers: &[],
        released_so: b"",
        told: &[b"norprog: device line\n"],
        ..LINE
    },
    Row {
        parts: 2,
        tested: b"",
        put: &[],
        answers: &[],
        released_so: b"",
        end: End::Fails,
        told: &[b"norprog: device read\n"],
        ..LINE
    },
    // nothing is there
    Row {
        opened: b"\x10\x10",
        parts: 0,
        opening: b"",
        tested: b"",
        put: &[],
        answers: &[],
        released: b"",
        released_so: b"",
        told: &[b"norprog: device silent\n"],
        ..LINE
    },
];
