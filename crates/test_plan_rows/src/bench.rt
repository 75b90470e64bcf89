//! What a row asks for.

use crate::{clocks, geometry, images, jobs, layouts, meanings, plans, sfdp, sheets, targets};
use nor_base::Meaning;
use std::alloc::Global;
use std::io;
use test_samples::rows::{Answers, Row};
use test_samples::words::{ODD, hexadecimal};

/// Where the rows of a file are done: the SFDP bytes and the chips that they may name.
#[derive(Drop)]
pub(crate) struct Bench {
    alloc: Global,
    tables: Vec<(String, Vec<u8>)>,
    pub(crate) chips: Vec<(String, Meaning)>,
}

/// A row at its bench: its words, and the lines that are handed over.
#[derive(Drop)]
pub(crate) struct Asked<'b, 'r> {
    pub(crate) bench: &'b Bench,
    pub(crate) alloc: Global,
    pub(crate) words: Vec<&'r str>,
    pub(crate) given: &'r [&'r str],
}

impl Bench {
    /// It has the bytes and chips of `test_samples`.
    pub(crate) fn new(alloc: Global) -> io::Result<Bench> {
        Ok(Bench {
            alloc,
            tables: sfdp::samples(alloc)?,
            chips: meanings::samples(alloc)?,
        })
    }

    /// The bytes that a row keeps.
    fn bytes(&self, row: &Row<'_>) -> io::Result<(String, Vec<u8>)> {
        let asked = self.asked(row)?;
        Ok((asked.name()?, sfdp::bytes_of(&asked)?))
    }

    /// The chip that a row keeps.
    fn meaning(&self, row: &Row<'_>) -> io::Result<(String, Meaning)> {
        let asked = self.asked(row)?;
        let meaning = meanings::meaning_of(&asked)?.ok().ok_or(ODD)?;
        Ok((asked.name()?, meaning))
    }

    /// A row at this bench.
    fn asked<'b, 'r>(&'b self, row: &Row<'r>) -> io::Result<Asked<'b, 'r>> {
        Ok(Asked {
            bench: self,
            alloc: self.alloc,
            words: row.asked.split_whitespace().collect(self.alloc)?,
            given: row.given,
        })
    }

    /// The bytes of a name.
    pub(crate) fn table(&self, name: &str) -> io::Result<&[u8]> {
        Ok(kept(&self.tables, name)?.as_slice())
    }
}

impl Answers for Bench {
    /// `bytes` and `chip` keep what they tell by the name of `as=`.
    fn answer(&mut self, row: &Row<'_>, out: &mut String) -> io::Result<()> {
        if row.asked.starts_with("bytes ") {
            let kept = self.bytes(row)?;
            writeln!(out, "{} bytes", kept.1.len())?;
            self.tables.push(kept)?;
        } else if row.asked.starts_with("chip ") {
            let kept = self.meaning(row)?;
            meanings::put_meaning(&kept.1, out)?;
            self.chips.push(kept)?;
        } else {
            told(&self.asked(row)?, out)?;
        }
        Ok(())
    }
}

impl<'b, 'r> Asked<'b, 'r> {
    /// The word of a number; the first, 0, says what is asked for.
    pub(crate) fn word(&self, at: usize) -> io::Result<&'r str> {
        Ok(*self.words.get(at).ok_or(ODD)?)
    }

    /// The word of a number as a hexadecimal one.
    pub(crate) fn hexadecimal(&self, at: usize) -> io::Result<u32> {
        hexadecimal(self.word(at)?)
    }

    /// What comes after a key and `=` in one of the words.
    pub(crate) fn value(&self, key: &str) -> Option<&'r str> {
        let mut words = self.words.iter();
        words.find_map(|word| word.strip_prefix(key)?.strip_prefix('='))
    }

    /// The name that what a row tells is kept by.
    fn name(&self) -> io::Result<String> {
        Ok(String::from_str(self.alloc, self.value("as").ok_or(ODD)?)?)
    }

    /// Whether a word is among the words.
    pub(crate) fn has(&self, flag: &str) -> bool {
        self.words.iter().any(|word| *word == flag)
    }

    /// The chip that the second word names.
    pub(crate) fn chip(&self) -> io::Result<&'b Meaning> {
        kept(&self.bench.chips, self.word(1)?)
    }
}

/// What is kept by a name.
fn kept<'k, T: Drop>(all: &'k [(String, T)], name: &str) -> io::Result<&'k T> {
    let found = all.iter().find(|(other, _)| other.as_str() == name);
    let (_, kept) = found.ok_or(ODD)?;
    Ok(kept)
}

/// Does a row that leaves nothing for later ones.
fn told(asked: &Asked<'_, '_>, out: &mut String) -> io::Result<()> {
    match asked.word(0)? {
        "hex" => images::read_text(asked, out),
        "records" => images::first_records(asked, out),
        "run-from" => images::next_run(asked, out),
        "choose" => layouts::choose(asked, out),
        "chosen-from" => layouts::next_run(asked, out),
        "fill" => targets::fill_part(asked, out),
        "sample" => Ok(meanings::put_meaning(asked.chip()?, out)?),
        "sfdp" => meanings::read_words(asked, out),
        "sheet" => sheets::read_sheet(asked, out),
        "table" => sfdp::dwords(asked, out),
        "prefixes" => sfdp::prefixes(asked, out),
        "job" => jobs::job(asked, out),
        "start" => jobs::start(asked, out),
        "contradiction" => jobs::told(asked, out),
        "strategies" => geometry::strategies(asked, out),
        "blocks" => geometry::blocks(asked, out),
        "plan" => plans::window(asked, false, out),
        "lines" => plans::window(asked, true, out),
        "runs" => plans::runs(asked, out),
        "clocks" => clocks::all_at_once(asked, out),
        "parts" => clocks::in_parts(asked, out),
        _ => Err(ODD.into()),
    }
}
