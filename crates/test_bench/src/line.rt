//! The test of the line to a device in memory.

use crate::same::{holds, same};
use nor_base::{FromRead, IntoWrite};
use nor_serprog::{Fault, Limits, test_line};
use std::alloc::{AllocError, Global};
use std::process::Abort;
use std::test::Fail;
use test_samples::{Canned, End, Held};

/// The values from 00h to 7Fh.
const LOW: &[u8] = b"\x00\x01\x02\x03\x04\x05\x06\x07\x08\x09\x0a\x0b\x0c\x0d\x0e\x0f\
    \x10\x11\x12\x13\x14\x15\x16\x17\x18\x19\x1a\x1b\x1c\x1d\x1e\x1f\
    \x20\x21\x22\x23\x24\x25\x26\x27\x28\x29\x2a\x2b\x2c\x2d\x2e\x2f\
    \x30\x31\x32\x33\x34\x35\x36\x37\x38\x39\x3a\x3b\x3c\x3d\x3e\x3f\
    \x40\x41\x42\x43\x44\x45\x46\x47\x48\x49\x4a\x4b\x4c\x4d\x4e\x4f\
    \x50\x51\x52\x53\x54\x55\x56\x57\x58\x59\x5a\x5b\x5c\x5d\x5e\x5f\
    \x60\x61\x62\x63\x64\x65\x66\x67\x68\x69\x6a\x6b\x6c\x6d\x6e\x6f\
    \x70\x71\x72\x73\x74\x75\x76\x77\x78\x79\x7a\x7b\x7c\x7d\x7e\x7f";

/// Those from 80h to FFh.
const HIGH: &[u8] = b"\x80\x81\x82\x83\x84\x85\x86\x87\x88\x89\x8a\x8b\x8c\x8d\x8e\x8f\
    \x90\x91\x92\x93\x94\x95\x96\x97\x98\x99\x9a\x9b\x9c\x9d\x9e\x9f\
    \xa0\xa1\xa2\xa3\xa4\xa5\xa6\xa7\xa8\xa9\xaa\xab\xac\xad\xae\xaf\
    \xb0\xb1\xb2\xb3\xb4\xb5\xb6\xb7\xb8\xb9\xba\xbb\xbc\xbd\xbe\xbf\
    \xc0\xc1\xc2\xc3\xc4\xc5\xc6\xc7\xc8\xc9\xca\xcb\xcc\xcd\xce\xcf\
    \xd0\xd1\xd2\xd3\xd4\xd5\xd6\xd7\xd8\xd9\xda\xdb\xdc\xdd\xde\xdf\
    \xe0\xe1\xe2\xe3\xe4\xe5\xe6\xe7\xe8\xe9\xea\xeb\xec\xed\xee\xef\
    \xf0\xf1\xf2\xf3\xf4\xf5\xf6\xf7\xf8\xf9\xfa\xfb\xfc\xfd\xfe\xff";

/// What goes out to a device that sends 129 bytes: all values after 05h, zeros of three lengths,
/// NOP, and 10h.
pub(crate) const PUT: [&[u8]; 12] = [
    b"\x13\x81\x00\x00\x00\x00\x00\x05",
    LOW,
    b"\x13\x81\x00\x00\x00\x00\x00\x05",
    HIGH,
    b"\x13\x0d\x00\x00\x00\x00\x00\x05",
    &[0; 12],
    b"\x13\x61\x00\x00\x00\x00\x00\x05",
    &[0; 96],
    b"\x13\x80\x00\x00\x00\x00\x00\x05",
    &[0; 127],
    b"\x00",
    b"\x10",
];

/// What such a device answers.
pub(crate) const ANSWERS: &[u8] = b"\x06\x06\x06\x06\x06\x06\x15\x06";

/// What a device answers, where it ends, how many bytes it sends at once and takes in all; how its
/// test ends, and how many bytes were put.
#[derive(Clone, Copy)]
struct Row<'a> {
    answers: &'a [u8],
    end: End,
    sent: u32,
    room: usize,
    result: Result<(), Fault>,
    count: usize,
}

/// A device to which each byte comes as it was sent.
const GOOD: Row<'static> = Row {
    answers: ANSWERS,
    end: End::Silent,
    sent: 129,
    room: 5000,
    result: Ok(()),
    count: 533,
};

/// Lines that change what goes out, and what a device answers that gets it so.
static ROWS: [Row<'static>; 9] = [
    GOOD,
    // LF is sent as CR LF: 129 bytes are there before 7Fh, which is no command
    Row {
        answers: b"\x06\x15",
        result: Err(Fault::Nak),
        count: 272,
        ..GOOD
    },
    // a byte is dropped: the device waits for the last of 129
    Row {
        answers: b"",
        result: Err(Fault::Silent),
        count: 136,
        ..GOOD
    },
    // CR is sent as LF: of 13 bytes the last three are NOPs, and three answers are left before that
    // to 10h
    Row {
        answers: b"\x06\x06\x06\x06\x06\x06\x06\x06\x06\x15\x06",
        result: Err(Fault::Differs),
        ..GOOD
    },
    // lower case is sent as upper case: of 97 bytes the last 32 are NOPs
    Row {
        answers: &[6; 38],
        result: Err(Fault::Differs),
        ..GOOD
    },
    // a NAK for ACK in the word
    Row {
        answers: b"\x06\x06\x06\x06\x06\x06\x15\x15",
        result: Err(Fault::Differs),
        ..GOOD
    },
    // it falls silent, fails, and its writer fails, in NOP
    Row {
        answers: b"\x06\x06\x06\x06\x06",
        result: Err(Fault::Silent),
        count: 532,
        ..GOOD
    },
    Row {
        answers: b"\x06\x06\x06\x06\x06",
        end: End::Fails,
        result: Err(Fault::Read),
        count: 532,
        ..GOOD
    },
    Row {
        room: 531,
        result: Err(Fault::Write),
        count: 531,
        ..GOOD
    },
];

/// All of these in a row.
pub(crate) fn joined(alloc: Global, parts: &[&[u8]]) -> Result<Vec<u8>, AllocError> {
    let mut all = Vec::new(alloc);
    for part in parts {
        all.extend_from_slice(part)?;
    }
    Ok(all)
}

/// Tests the line of a row: what was put, and how many bytes the device has still to give.
fn tests(rt: &impl Abort, alloc: Global, row: &Row<'_>) -> (Vec<u8>, usize) {
    let mut from = FromRead::new(Canned {
        answers: row.answers,
        silent: 0,
        end: row.end,
    });
    let mut to = IntoWrite::new(Held::new(alloc, row.room));
    holds(rt, "limits", 0 < row.sent && row.sent < 1 << 24);
    let limits = Limits {
        sent: row.sent,
        asked: 1,
        ahead: 0,
        pins: false,
    };
    let met = test_line(&mut from, &mut to, &limits);
    same(rt, "the test", met, row.result);
    (to.into_inner().bytes, from.into_inner().answers.len())
}

#[test]
fn lines_are_tested(rt: HostRuntime) -> Result<(), Fail> {
    let all = joined(rt.alloc(), &PUT)?;
    for row in &ROWS {
        let (put, _) = tests(&rt, rt.alloc(), row);
        same(&rt, "how many were put", put.len(), row.count);
        holds(
            &rt,
            "what was put",
            all.as_slice().starts_with(put.as_slice()),
        );
    }
    Ok(())
}

/// How many bytes a device sends at once, how many of its answers are ACK alone, and how many bytes
/// go out to it.
static LENGTHS: [(u32, usize, usize); 11] = [
    // where 05h alone has room no value is sent
    (1, 1, 2),
    (2, 257, 2306),
    (12, 25, 450),
    (13, 24, 454),
    (96, 5, 302),
    (97, 6, 406),
    (127, 6, 406),
    (128, 7, 541),
    (129, 6, 533),
    (257, 5, 525),
    (0xFF_FFFF, 5, 525),
];

/// No test has more operations than it needs, and nothing of the answers is left.
#[test]
fn tests_are_short(rt: HostRuntime) -> Result<(), Fail> {
    for (sent, acks, count) in &LENGTHS {
        let mut answers = vec![in rt.alloc(); 0x06u8; *acks]?;
        answers.extend_from_slice(b"\x15\x06")?;
        let row = Row {
            answers: answers.as_slice(),
            sent: *sent,
            ..GOOD
        };
        let (put, left) = tests(&rt, rt.alloc(), &row);
        same(&rt, "how many were put", put.len(), *count);
        same(&rt, "answers left", left, 0);
    }
    Ok(())
}
