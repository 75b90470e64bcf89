//! Handshakes with devices in memory.

use crate::same::{holds, same};
use nor_base::{FromRead, IntoWrite};
use nor_serprog::{Command, Fault, GreetFault, Limits, greet};
use std::alloc::Global;
use std::process::Abort;
use std::test::Fail;
use test_samples::{Canned, End, Held};

/// What a device answers that offers 01h, 02h, 04h, 08h, 11h, 12h, 13h and 15h: 300 bytes before it
/// answers, at most 256 bytes out, and 2^24 in.
const ANSWERS: &[u8; 51] = b"\x15\x06\
    \x06\x01\x00\
    \x06\x16\x01\x2e\x00\x00\x00\x00\x00\x00\x00\x00\x00\x00\x00\x00\x00\
    \x00\x00\x00\x00\x00\x00\x00\x00\x00\x00\x00\x00\x00\x00\x00\x00\
    \x06\
    \x06\x2c\x01\
    \x06\x00\x01\x00\
    \x06\x00\x00\x00\
    \x06";

/// The same of one that offers only what it must.
const BARE: &[u8] = b"\x15\x06\
    \x06\x01\x00\
    \x06\x00\x00\x0c\x00\x00\x00\x00\x00\x00\x00\x00\x00\x00\x00\x00\x00\
    \x00\x00\x00\x00\x00\x00\x00\x00\x00\x00\x00\x00\x00\x00\x00\x00\
    \x06";

/// Each command, where its answer begins, how many bytes were put before it, and how many with it.
static COMMANDS: [(Command, usize, usize, usize); 7] = [
    (Command::QueryInterface, 2, 1, 2),
    (Command::QueryCommands, 5, 2, 3),
    (Command::SetBus, 38, 3, 5),
    (Command::QueryBuffer, 39, 5, 6),
    (Command::QueryWriteMax, 42, 6, 7),
    (Command::QueryReadMax, 46, 7, 8),
    (Command::SetPins, 50, 8, 10),
];

/// What a device answers, where it ends, after some silence; how much it takes.
#[derive(Clone, Copy)]
struct Row<'a> {
    answers: &'a [u8],
    silent: u32,
    end: End,
    room: usize,
}

/// A device that answers each command.
const GOOD: Row<'static> = Row {
    answers: ANSWERS,
    silent: 0,
    end: End::Silent,
    room: 100,
};

/// Greets it, and gives what it took.
fn greets(alloc: Global, row: &Row<'_>) -> (Result<Limits, GreetFault>, Vec<u8>) {
    let mut from = FromRead::new(Canned {
        answers: row.answers,
        silent: row.silent,
        end: row.end,
    });
    let mut to = IntoWrite::new(Held::new(alloc, row.room));
    let met = greet(&mut from, &mut to);
    (met, to.into_inner().bytes)
}

/// The answer to the query of the interface is cut.
const CUT: GreetFault = GreetFault::Command {
    at: Command::QueryInterface,
    why: Fault::Silent,
};

/// The same of one that offers 04h besides, and returns NAK to it.
const REFUSES: &[u8] = b"\x15\x06\
    \x06\x01\x00\
    \x06\x10\x00\x0c\x00\x00\x00\x00\x00\x00\x00\x00\x00\x00\x00\x00\x00\
    \x00\x00\x00\x00\x00\x00\x00\x00\x00\x00\x00\x00\x00\x00\x00\x00\
    \x06\
    \x15";

/// Answers after some silence, what is put, and the limits.
static GREETED: [(&[u8], u32, &[u8], Result<(u32, u32, u16, bool), GreetFault>); 5] = [
    (
        ANSWERS,
        0,
        b"\x10\x01\x02\x12\x08\x04\x08\x11\x15\x01",
        Ok((256, 0xFF_FFFF, 300, true)),
    ),
    (
        BARE,
        0,
        b"\x10\x01\x02\x12\x08",
        Ok((0xFF_FFFF, 0xFF_FFFF, 0, false)),
    ),
    (
        REFUSES,
        0,
        b"\x10\x01\x02\x12\x08\x04",
        Ok((0xFF_FFFF, 0xFF_FFFF, 0, false)),
    ),
    (b"\x15\x06\x15\x06", 1, b"\x10\x10\x01", Err(CUT)),
    (b"\x00\x06\x15\x15\x06", 0, b"\x10\x01", Err(CUT)),
];

#[test]
fn greets_devices(rt: HostRuntime) {
    for (answers, silent, put, want) in &GREETED {
        let row = Row {
            answers,
            silent: *silent,
            ..GOOD
        };
        let (met, held) = greets(rt.alloc(), &row);
        holds(&rt, "what was put", held.as_slice() == *put);
        let limits = met.map(|limits| (limits.sent, limits.asked, limits.ahead, limits.pins));
        same(&rt, "the limits", limits, *want);
    }
}

/// A device is met so, and has taken so many bytes.
fn stops(rt: &impl Abort, alloc: Global, row: &Row<'_>, fault: GreetFault, put: usize) {
    let (met, held) = greets(alloc, row);
    same(rt, "the fault", met.err(), Some(fault));
    same(rt, "how many were put", held.len(), put);
}

/// As [`stops`], for a device that answers another byte at one place.
fn stops_with(
    rt: &impl Abort,
    alloc: Global,
    (place, byte): (usize, u8),
    fault: GreetFault,
    put: usize,
) {
    let mut changed = *ANSWERS;
    if let Some(old) = changed.get_mut(place) {
        *old = byte;
    }
    let row = Row {
        answers: &changed,
        ..GOOD
    };
    stops(rt, alloc, &row, fault, put);
}

/// Each command's answer is cut, fails, is NAK, is another byte; and the writer fails in each
/// command.
#[test]
fn each_command_is_answered_wrongly(rt: HostRuntime) {
    let alloc = rt.alloc();
    for (at, place, before, put) in &COMMANDS {
        let (at, place, before, put) = (*at, *place, *before, *put);
        let fault = |why: Fault| GreetFault::Command { at, why };
        let cut = Row {
            answers: ANSWERS.get(..place).unwrap_or(&[]),
            ..GOOD
        };
        stops(&rt, alloc, &cut, fault(Fault::Silent), put);
        let fails = Row {
            end: End::Fails,
            ..cut
        };
        stops(&rt, alloc, &fails, fault(Fault::Read), put);
        let full = Row {
            room: before,
            ..GOOD
        };
        stops(&rt, alloc, &full, fault(Fault::Write), before);
        if at != Command::QueryBuffer {
            stops_with(&rt, alloc, (place, 0x15), fault(Fault::Nak), put);
        }
        stops_with(&rt, alloc, (place, 0x07), fault(Fault::Differs), put);
    }
}

/// Another version, twice, and no SPI operation: the place of a byte, and how many were put.
static OTHERS: [((usize, u8), GreetFault, usize); 3] = [
    ((3, 2), GreetFault::Version, 2),
    ((4, 1), GreetFault::Version, 2),
    ((8, 0x26), GreetFault::NoOperation, 3),
];

/// No first word; another version; no SPI operation.
#[test]
fn devices_that_are_none(rt: HostRuntime) {
    let at = Command::SyncNop;
    for (answers, why, put) in [
        (b"".as_slice(), Fault::Silent, 2),
        (&[0x15; 4000], Fault::Silent, 2),
    ] {
        let row = Row { answers, ..GOOD };
        stops(&rt, rt.alloc(), &row, GreetFault::Command { at, why }, put);
    }
    for (change, fault, put) in &OTHERS {
        stops_with(&rt, rt.alloc(), *change, *fault, *put);
    }
}

/// So many NAKs and then ACK: the last two of 4096 bytes may be the word, and none after them.
static NOISE: [(usize, GreetFault, usize); 2] = [
    (4095, CUT, 2),
    (
        4096,
        GreetFault::Command {
            at: Command::SyncNop,
            why: Fault::Differs,
        },
        1,
    ),
];

#[test]
fn noise_comes_before_the_word(rt: HostRuntime) -> Result<(), Fail> {
    for (noise, fault, put) in &NOISE {
        let mut answers = vec![in rt.alloc(); 0x15u8; *noise]?;
        answers.push(0x06)?;
        let row = Row {
            answers: answers.as_slice(),
            ..GOOD
        };
        stops(&rt, rt.alloc(), &row, *fault, *put);
    }
    Ok(())
}
