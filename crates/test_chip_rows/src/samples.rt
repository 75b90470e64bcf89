//! Chips by their names.

use nor_base::{Erase, Meaning, QuadRead, Switch, Width};
use std::alloc::Global;
use std::io;
use test_samples::meanings::named;
use test_samples::small_chip;
use test_samples::words::ODD;

/// The name of a chip, and what it is.
pub(crate) type Sample = (&'static str, Meaning);

/// The chips that rows may name.
pub(crate) fn samples(alloc: Global) -> io::Result<Vec<Sample>> {
    let two_mode = [
        ("two-mode", two_mode_chip(Switch::Plain)),
        ("two-mode-latched", two_mode_chip(Switch::Latched)),
    ];
    Ok(named().into_iter().chain(two_mode).collect(alloc)?)
}

/// The chip of a name.
pub(crate) fn meaning_of<'a>(all: &'a [Sample], name: &str) -> io::Result<&'a Meaning> {
    let (_, meaning) = all.iter().find(|(other, _)| *other == name).ok_or(ODD)?;
    Ok(meaning)
}

/// The small chip with all that the four-byte address instruction table (FF84h) offers, and both
/// address modes, which are switched so.
fn two_mode_chip(switch: Switch) -> Meaning {
    let sectors = Erase {
        size: 4096,
        op: 0x20,
        op4: Some(0x21),
    };
    let quad_read = QuadRead {
        op: 0x6B,
        dummies: 8,
    };
    Meaning {
        width: Width::Both,
        erases: [Some(sectors), None, None, None],
        enter: switch,
        leave: switch,
        quad_read: Some(quad_read),
        read4: true,
        quad_read4: true,
        program4: true,
        quad4: true,
        quad3: true,
        ..small_chip()
    }
}
