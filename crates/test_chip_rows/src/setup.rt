//! Chips as rows set them up.

use crate::bench::Bench;
use crate::samples::meaning_of;
use crate::words::bytes_of;
use nor_base::{Meaning, Start, Width};
use nor_chip::{BusyTimes, Chip};
use std::alloc::{AllocError, Global};
use std::io;
use test_samples::words::{ODD, hexadecimal, number};

/// A chip and what it holds, by the words of a row: its name, and then any of `mode4`, `quad`,
/// `keeps`, `page N`, `busy N ..`, `have A:HH ..` on FFh, and `want A:HH ..`, on what it has.
#[derive(Drop)]
pub(crate) struct Setup<'a, 'w> {
    pub(crate) meaning: &'a Meaning,
    pub(crate) start: Start,
    keeps: bool,
    page: u32,
    busy: Vec<u32>,
    pub(crate) have: Vec<u8>,
    want: Vec<&'w str>,
}

impl<'a, 'w> Setup<'a, 'w> {
    /// The setup that the words of a row say.
    pub(crate) fn of(bench: &Bench<'a>, words: &'w str) -> io::Result<Setup<'a, 'w>> {
        let (name, words) = words.split_once(' ').unwrap_or((words, ""));
        let mut setup = Setup::erased(bench.alloc, meaning_of(bench.all, name)?)?;
        let mut key = "";
        for word in words.split_whitespace() {
            if !setup.take(key, word)? {
                key = word;
            }
        }
        Ok(setup)
    }

    /// The setup that no word but the name says: a chip that holds FFh everywhere.
    fn erased(alloc: Global, meaning: &'a Meaning) -> Result<Setup<'a, 'w>, AllocError> {
        Ok(Setup {
            meaning,
            start: Start {
                mode4: false,
                quad: false,
            },
            keeps: false,
            page: meaning.page,
            busy: Vec::new(alloc),
            have: vec![in alloc; 0xFFu8; meaning.size as usize]?,
            want: Vec::new(alloc),
        })
    }

    /// Takes a word that belongs to a key, unless it is a key itself.
    fn take(&mut self, key: &str, word: &'w str) -> io::Result<bool> {
        match word {
            "page" | "busy" | "have" | "want" => return Ok(false),
            "mode4" => self.start.mode4 = true,
            "quad" => self.start.quad = true,
            "keeps" => self.keeps = true,
            _ => self.take_value(key, word)?,
        }
        Ok(true)
    }

    /// Takes a word that comes after a key.
    fn take_value(&mut self, key: &str, word: &'w str) -> io::Result<()> {
        match key {
            "page" => self.page = number(word)?,
            "busy" => self.busy.push(number(word)?)?,
            "have" => put(&mut self.have, word)?,
            "want" => self.want.push(word)?,
            _ => return Err(ODD.into()),
        }
        Ok(())
    }

    /// What the chip is to hold.
    pub(crate) fn wanted(&self) -> io::Result<Vec<u8>> {
        let mut bytes = self.have.clone()?;
        for word in self.want.iter() {
            put(&mut bytes, word)?;
        }
        Ok(bytes)
    }

    /// The chip, if there is such a one.
    pub(crate) fn into_chip(self) -> io::Result<Chip<'a>> {
        let (meaning, start, page) = (self.meaning, self.start, self.page);
        let whole = self.have.len() == meaning.size as usize;
        if !whole || start.mode4 && meaning.width == Width::Three || !meaning.may_page(page) {
            return Err(ODD.into());
        }
        let busy = BusyTimes::Listed(self.busy);
        Ok(Chip::with_page(meaning, start, self.have, busy, self.keeps, page))
    }
}

/// Puts the bytes of `A:HH ..` to their places, from the address A on.
fn put(bytes: &mut Vec<u8>, word: &str) -> io::Result<()> {
    let (address, digits) = word.split_once(':').ok_or(ODD)?;
    let at = hexadecimal(address)? as usize;
    let new = bytes_of(*bytes.allocator(), digits)?;
    put_from(bytes.as_mut_slice(), at, new.as_slice())
}

/// Puts bytes to their places, from a place on.
fn put_from(bytes: &mut [u8], mut at: usize, new: &[u8]) -> io::Result<()> {
    for byte in new {
        *bytes.get_mut(at).ok_or(ODD)? = *byte;
        at = at.saturating_add(1);
    }
    Ok(())
}
