//! Which cells are compared, worked out by hand.

ghost use Rattle.std.specs.Prelude.{◌≡◌, length};

use crate::ports::PLAIN;
use crate::same::{holds, same};
use nor_base::{Meaning, Step};
use nor_cells::{TouchedCells, mark_wraps};
use nor_script::read;
use std::alloc::{AllocError, Global};
use std::process::Abort;
use test_samples::small_chip;
use test_samples::texts::ONE_BYTE;

/// An erase of the 4 KiB at 1000h.
const ERASE: &str =
    "norscript 1\nx 00000110\nx 00100000000000000001000000000000\np 00000101........\nend 3\n";

/// The steps of a text touch a chip of 8 KiB that holds 00h at these addresses and FFh elsewhere.
/// The cells that are compared before them.
struct Row {
    text: &'static str,
    held: &'static [usize],
    cells: &'static [usize],
}

static ROWS: [Row; 4] = [
    // only what is touched
    Row {
        text: ONE_BYTE,
        held: &[],
        cells: &[0],
    },
    // the first and the last held byte, and the byte 4 KiB from the first: a chip of 4 KiB would
    // give it there too
    Row {
        text: ONE_BYTE,
        held: &[0x500, 0x700, 0x1800],
        cells: &[0, 5, 21, 24],
    },
    // the held cell beside the erased block is the last one below it
    Row {
        text: ERASE,
        held: &[0x500, 0x700, 0x9FF],
        cells: &[
            5, 9, 16, 17, 18, 19, 20, 21, 22, 23, 24, 25, 26, 27, 28, 29, 30, 31,
        ],
    },
    // the held cell beside the programmed one is the first above it; what repeats after 4 KiB tells
    // no smaller chip
    Row {
        text: ONE_BYTE,
        held: &[0x200, 0x300, 0x1200, 0x1300],
        cells: &[0, 2, 19],
    },
];

/// A content of 8 KiB that holds 00h at these addresses and FFh elsewhere.
fn content(alloc: Global, held: &[usize]) -> Vec<u8> {
    let mut bytes = vec![in alloc; 0xFFu8; 8192].unwrap_or(Vec::new(alloc));
    for at in held {
        if let Some(place) = bytes.get_mut(*at) {
            *place = 0x00;
        }
    }
    bytes
}

/// The cells that are compared before steps, which come in two parts.
fn compared(
    alloc: Global,
    chip: &Meaning,
    content: &[u8],
    steps: &[Step],
) -> Result<Vec<bool>, AllocError>
    requires { length content.now ≡ chip.now.size }
{
    let (first, others) = steps.split_at(steps.len() / 2);
    let mut cells = TouchedCells::new(alloc, chip, &PLAIN)?;
    cells.touch(first);
    cells.touch(others);
    cells.compared(alloc, content)
}

/// Whether just these of the 32 cells are marked.
fn just(marks: &[bool], cells: &[usize]) -> bool {
    let mut so = marks.len() == 32;
    for (c, mark) in marks.iter().enumerate() {
        so = so && *mark == cells.contains(&c);
    }
    so
}

/// The cells of each row.
#[test]
fn cells_are_compared(rt: HostRuntime) {
    let chip = small_chip();
    for row in &ROWS {
        let content = content(rt.alloc(), row.held);
        holds(&rt, "content", content.len() == chip.size as usize);
        match read(rt.alloc(), row.text.as_bytes()) {
            Ok(steps) => match compared(rt.alloc(), &chip, &content, &steps) {
                Ok(marks) => holds(&rt, "cells", just(&marks, row.cells)),
                Err(_) => holds(&rt, "memory", false),
            },
            Err(_) => holds(&rt, "script", false),
        }
    }
}

/// A chip of 4 KiB shows by the first byte that isn't the one 4 KiB on.
#[test]
fn smaller_chips_show(rt: HostRuntime) {
    let content = content(rt.alloc(), &[0x342, 0x900]);
    holds(&rt, "content", content.len() == 8192);
    let mut marks = [false; 32];
    mark_wraps(&mut marks, &content);
    same(&rt, "marks", just(&marks, &[3, 19]), true);
}
