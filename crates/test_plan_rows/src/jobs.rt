//! Rows on what a build is asked for.

use crate::bench::Asked;
use crate::faults::put_fault;
use crate::images::put_image;
use crate::layouts::{owned, put_chosen};
use crate::meanings::{part_of, put_named};
use crate::words::text;
use nor_base::{Bytes, Start};
use nor_job::{Inputs, Job, Source, chip_of, contradiction, job_of};
use std::io;
use test_samples::texts::IMAGE;
use test_samples::words::{ODD, hexadecimal, number};

/// What a row's inputs borrow.
#[derive(Drop)]
struct Texts {
    hex: Vec<u8>,
    layout: Option<Vec<u8>>,
    names: Vec<Bytes>,
}

/// The image is 00h at address 0 and the layout missing where no line is handed over; `name=` names
/// a region.
fn texts_of(asked: &Asked<'_, '_>) -> io::Result<Texts> {
    let names = match asked.value("name") {
        Some(name) => owned(asked.alloc, &[name])?,
        None => Vec::new(asked.alloc),
    };
    let hex = match text(asked, ">")? {
        Some(hex) => hex,
        None => Vec::from_slice(asked.alloc, IMAGE.as_bytes())?,
    };
    let layout = text(asked, ">>")?;
    Ok(Texts { hex, layout, names })
}

/// The inputs that words say: `chip=` and `bits=` have SFDP bytes and their configuration bits,
/// `uniform=` the size of a chip without them.
fn inputs<'x>(asked: &Asked<'x, 'x>, texts: &'x Texts) -> io::Result<Inputs<'x>> {
    Ok(Inputs {
        hex: &texts.hex,
        image: None,
        layout: texts.layout.as_deref(),
        regions: &texts.names,
        chip: source_of(asked)?,
        part: part_of(asked)?,
        status: asked.value("status").map(hexadecimal).transpose()?,
        mode4: asked.has("mode4"),
        quad: asked.has("quad"),
        base: asked.value("base").map_or(Ok(0), hexadecimal)?,
        verify: asked.has("verify"),
        erased_only: asked.has("erased-only"),
        page: asked.value("page").map(number).transpose()?,
    })
}

/// Where the chip of words comes from.
fn source_of<'x>(asked: &Asked<'x, 'x>) -> io::Result<Source<'x>> {
    match asked.value("uniform") {
        Some(size) => Ok(Source::Uniform(number(size)?)),
        None => Ok(Source::Sfdp {
            bytes: asked.bench.table(asked.value("chip").unwrap_or("none"))?,
            bits: asked.value("bits").unwrap_or(""),
        }),
    }
}

/// Tells the job of inputs on a chip whose content has `len=` bytes, or why there is none.
pub(crate) fn job(asked: &Asked<'_, '_>, out: &mut String) -> io::Result<()> {
    let len = asked.value("len").ok_or(ODD)?.parse::<u64>();
    let len = len.ok().ok_or(ODD)?;
    let texts = texts_of(asked)?;
    match job_of(asked.alloc, &inputs(asked, &texts)?, len) {
        Ok(job) => put_job(asked, &job, out),
        Err(fault) => put_fault(out, fault),
    }
}

/// A job's image, chosen runs, chip, start, base and whether it is verified.
fn put_job(asked: &Asked<'_, '_>, job: &Job, out: &mut String) -> io::Result<()> {
    put_image(&job.image, out)?;
    put_chosen(&job.chosen, out)?;
    put_named(asked, &job.meaning, out)?;
    put_start(job.start, out)?;
    let end = if job.verify { " verify" } else { "" };
    Ok(writeln!(out, "base {:08x}{end}", job.base)?)
}

/// How a chip begins.
fn put_start(start: Start, out: &mut String) -> io::Result<()> {
    let mode = if start.mode4 { "four" } else { "three" };
    let end = if start.quad { " quad" } else { "" };
    Ok(writeln!(out, "start {mode}{end}")?)
}

/// Tells the chip of inputs and how it begins, or why there is none.
pub(crate) fn start(asked: &Asked<'_, '_>, out: &mut String) -> io::Result<()> {
    let texts = texts_of(asked)?;
    match chip_of(&inputs(asked, &texts)?) {
        Ok((meaning, start)) => {
            put_named(asked, &meaning, out)?;
            put_start(start, out)
        }
        Err(fault) => put_fault(out, fault),
    }
}

/// Tells how inputs contradict one another.
pub(crate) fn told(asked: &Asked<'_, '_>, out: &mut String) -> io::Result<()> {
    let texts = texts_of(asked)?;
    match contradiction(&inputs(asked, &texts)?) {
        Some(number) => writeln!(out, "contradiction {number}")?,
        None => out.push_str("none\n")?,
    }
    Ok(())
}
