//! Rows on what the chip must hold.

use crate::bench::Asked;
use crate::images::image_of;
use crate::layouts::chosen;
use crate::words::{bytes, end_with};
use nor_hex::Image;
use nor_layout::Chosen;
use nor_target::{fill, ignored};
use std::io;
use test_samples::words::{ODD, hexadecimal, number};

/// Fills the part of a chip that `at=` and `have=` say, and counts what goes nowhere on a chip of
/// `size=` bytes. Behind these words stand the names of the chosen regions.
pub(crate) fn fill_part(asked: &Asked<'_, '_>, out: &mut String) -> io::Result<()> {
    let (base, size, at) = numbers_of(asked)?;
    let image = image_of(asked)?.ok().ok_or(ODD)?;
    let chosen = chosen(asked, ">>", asked.words.get(5..).unwrap_or(&[]))?
        .ok()
        .ok_or(ODD)?;
    put_filled(asked, &image, base, &chosen, at, out)?;
    Ok(writeln!(out, "ignored {}", ignored(&image, base, &chosen, size))?)
}

/// The numbers of `base=`, `size=` and `at=`.
fn numbers_of(asked: &Asked<'_, '_>) -> io::Result<(u32, u32, u32)> {
    let base = hexadecimal(asked.value("base").ok_or(ODD)?)?;
    let size = number(asked.value("size").ok_or(ODD)?)?;
    let at = hexadecimal(asked.value("at").ok_or(ODD)?)?;
    Ok((base, size, at))
}

/// What the part at an address must hold, over what `have=` says that it has.
fn put_filled(
    asked: &Asked<'_, '_>,
    image: &Image,
    base: u32,
    chosen: &Chosen,
    at: u32,
    out: &mut String,
) -> io::Result<()> {
    let have = bytes(asked.alloc, asked.value("have").ok_or(ODD)?)?;
    let mut want = vec![in asked.alloc; 0xEEu8; have.len()]?;
    let end = u64::from(at).saturating_add(have.len() as u64);
    if end > 1 << 32 || want.len() != have.len() {
        return Err(ODD.into());
    }
    fill(image, base, chosen, at, &have, &mut want);
    write!(out, "holds")?;
    Ok(end_with(&want, out)?)
}
