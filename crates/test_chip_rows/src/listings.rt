//! Listings of scripts.

use crate::bench::Bench;
use crate::samples::meaning_of;
use crate::scripts::text;
use crate::steps::steps_of;
use nor_base::{IntoWrite, Start};
use nor_listing::write_listing;
use std::io;
use test_samples::rows::Row;
use test_samples::words::ODD;

/// The listing of steps on a chip, which begins in four-byte mode where a second word says so.
pub(crate) fn tell(bench: &Bench<'_>, row: &Row<'_>, out: &mut String) -> io::Result<()> {
    let name = row.asked.strip_suffix(" mode4");
    let meaning = meaning_of(bench.all, name.unwrap_or(row.asked))?;
    let start = Start {
        mode4: name.is_some(),
        quad: false,
    };
    let steps = steps_of(bench.alloc, row.given)?;
    let mut writer = IntoWrite::new(Vec::new(bench.alloc));
    if write_listing(meaning, &start, steps.as_slice(), &mut writer).is_err() {
        return Err(ODD.into());
    }
    Ok(out.push_str(text(writer.inner.as_slice()))?)
}
