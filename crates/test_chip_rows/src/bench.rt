//! What a row asks for.

use crate::samples::{Sample, meaning_of};
use crate::{chips, clocks, listings, meanings, scripts, verdicts};
use nor_chip::Chip;
use std::alloc::Global;
use std::io;
use test_samples::rows::{Answers, Row};
use test_samples::words::ODD;

/// Where rows are done: the chips that they may name, and the chip of the latest row that set one
/// up.
#[derive(Drop)]
pub(crate) struct Bench<'a> {
    pub(crate) alloc: Global,
    pub(crate) all: &'a [Sample],
    pub(crate) chip: Option<Chip<'a>>,
}

impl<'a> Bench<'a> {
    /// No chip is set up.
    pub(crate) fn new(alloc: Global, all: &'a [Sample]) -> Bench<'a> {
        Bench {
            alloc,
            all,
            chip: None,
        }
    }
}

impl<'a> Answers for Bench<'a> {
    fn answer(&mut self, row: &Row<'_>, out: &mut String) -> io::Result<()> {
        let (kind, words) = row.asked.split_once(' ').unwrap_or((row.asked, ""));
        // what does a row is asked without its first word
        let row = &Row {
            asked: words,
            ..*row
        };
        match kind {
            "decode" => clocks::tell_all(self, row, out),
            "listing" => listings::tell(self, row, out),
            "chip" => chips::transact(self, row, out),
            "play" => chips::play_on(self, row, out),
            "check" => verdicts::tell(self, row, out),
            "symbols" | "symbol" | "sampled" | "verify" => tell_clocks(
                self.alloc, kind, words, out,
            ),
            "meaning" | "uniform" | "pages" | "legal" | "program" => {
                tell_meaning(self.all, kind, words, out)
            }
            _ => tell_script(self.alloc, kind, row, out),
        }
    }
}

/// What a row asks for on symbols of clocks.
fn tell_clocks(alloc: Global, kind: &str, words: &str, out: &mut String) -> io::Result<()> {
    match kind {
        "symbols" => clocks::list_symbols(out),
        "symbol" => clocks::tell_symbols(words, out),
        "sampled" => clocks::count_sampled(words, out),
        _ => clocks::tell_verify(alloc, words, out),
    }
}

/// What a row asks for on a meaning.
fn tell_meaning(all: &[Sample], kind: &str, words: &str, out: &mut String) -> io::Result<()> {
    match kind {
        "meaning" => meanings::tell(meaning_of(all, words)?, out),
        "uniform" => meanings::tell_uniform(words, out),
        _ => meanings::filter(all, kind, words, out),
    }
}

/// What a row asks for on the text of a script.
fn tell_script(alloc: Global, kind: &str, row: &Row<'_>, out: &mut String) -> io::Result<()> {
    match kind {
        "script" => scripts::read_text(alloc, row.given, out),
        "fronts" => scripts::read_fronts(alloc, row.given, out),
        "writable" => scripts::tell_writable(alloc, row.given, out),
        "written" => scripts::write_all(alloc, row, out),
        _ => Err(ODD.into()),
    }
}
