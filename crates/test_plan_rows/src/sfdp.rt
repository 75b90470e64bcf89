//! Rows on SFDP bytes and their tables.

use crate::bench::Asked;
use crate::faults::put_fault;
use crate::words::bytes;
use nor_base::Part;
use nor_job::BuildFault;
use nor_sfdp::{SfdpTable, read, table};
use std::alloc::{AllocError, Global};
use std::io;
use test_samples::sfdp::{LARGE, MAPPED, SMALL};
use test_samples::words::{ODD, byte, number};

/// The bytes of `test_samples`, and none.
pub(crate) fn samples(alloc: Global) -> Result<Vec<(String, Vec<u8>)>, AllocError> {
    let none: &[u8] = &[];
    let mut all = Vec::new(alloc);
    for (name, bytes) in [
        ("none", none),
        ("small", &SMALL),
        ("large", &LARGE),
        ("mapped", &MAPPED),
    ] {
        let name = String::from_str(alloc, name)?;
        all.push((name, Vec::from_slice(alloc, bytes)?))?;
    }
    Ok(all)
}

/// The bytes that words say: of a name; then each word changes what the words before it say. `N=HH`
/// sets byte N, `cut=N` leaves the first N, `+HEX` and `+HEX*N` put more behind the last; what
/// other keys say is left to others.
pub(crate) fn bytes_of(asked: &Asked<'_, '_>) -> io::Result<Vec<u8>> {
    let table = asked.bench.table(asked.word(1)?)?;
    changed(asked.alloc, table, asked.words.get(2..).unwrap_or(&[]))
}

/// Bytes with the changes that words say, one after the other.
fn changed(alloc: Global, table: &[u8], words: &[&str]) -> io::Result<Vec<u8>> {
    let mut bytes = Vec::from_slice(alloc, table)?;
    for word in words {
        change(alloc, &mut bytes, word)?;
    }
    Ok(bytes)
}

/// Changes bytes as a word says.
fn change(alloc: Global, all: &mut Vec<u8>, word: &str) -> io::Result<()> {
    if let Some(more) = word.strip_prefix('+') {
        return put_more(alloc, all, more);
    }
    match word.split_once('=').ok_or(ODD)? {
        ("as" | "bits" | "part" | "id" | "at", _) => {}
        ("cut", count) => all.truncate(number(count)? as usize),
        (place, digits) => set(all.as_mut_slice(), place, digits)?,
    }
    Ok(())
}

/// Puts the bytes of digits behind the last, so many times where a `*` says it.
fn put_more(alloc: Global, all: &mut Vec<u8>, more: &str) -> io::Result<()> {
    let (digits, times) = more.split_once('*').unwrap_or((more, "1"));
    let more = bytes(alloc, digits)?;
    for _ in 0..number(times)? {
        all.extend_from_slice(&more)?;
    }
    Ok(())
}

/// Sets the byte of a number.
fn set(all: &mut [u8], place: &str, digits: &str) -> io::Result<()> {
    let new = byte(digits)?;
    *all.get_mut(number(place)? as usize).ok_or(ODD)? = new;
    Ok(())
}

/// The DWORDs of some numbers in a table; behind the bytes stand `id=` and, joined by commas,
/// `at=`.
pub(crate) fn dwords(asked: &Asked<'_, '_>, out: &mut String) -> io::Result<()> {
    let id = u16::from_str_radix(asked.value("id").ok_or(ODD)?, 16);
    let numbers = asked.value("at").ok_or(ODD)?;
    put_table(&bytes_of(asked)?, id.ok().ok_or(ODD)?, numbers, out)
}

/// The DWORDs of the table that bytes have by an identifier.
fn put_table(bytes: &[u8], id: u16, numbers: &str, out: &mut String) -> io::Result<()> {
    match table(bytes, id) {
        Ok(Some(table)) => put_dwords(&table, numbers, out),
        Ok(None) => Ok(out.push_str("none\n")?),
        Err(fault) => put_fault(out, BuildFault::Sfdp(fault)),
    }
}

/// Each number with its DWORD.
fn put_dwords(table: &SfdpTable<'_>, numbers: &str, out: &mut String) -> io::Result<()> {
    for word in numbers.split(',') {
        put_dword(word, table.dword(number(word)? as usize), out)?;
    }
    Ok(())
}

/// A number with its DWORD.
fn put_dword(word: &str, dword: Option<u32>, out: &mut String) -> Result<(), AllocError> {
    match dword {
        Some(dword) => writeln!(out, "{word} {dword:08x}"),
        None => writeln!(out, "{word} none"),
    }
}

/// From how many bytes on their first so many are refused, each time for another reason, and how
/// many there are.
pub(crate) fn prefixes(asked: &Asked<'_, '_>, out: &mut String) -> io::Result<()> {
    let bytes = bytes_of(asked)?;
    let mut latest = 0;
    for (end, _) in bytes.iter().enumerate() {
        let prefix = bytes.get(..end).unwrap_or(&[]);
        match read(prefix, "", Part::Generic) {
            Err(fault) if fault as u8 + 1 != latest => {
                latest = fault as u8 + 1;
                write!(out, "{end} ")?;
                put_fault(out, BuildFault::Sfdp(fault))?;
            }
            Err(_) => {}
            Ok(_) => writeln!(out, "{end} is read")?,
        }
    }
    Ok(writeln!(out, "{} bytes", bytes.len())?)
}
