//! Refused growths of the readers.
//!
//! `tools/refused-growths` refuses each growth in turn: the first test also passes where the fault
//! is Memory, the second only where each job is done.

use crate::same::{holds, same};
use nor_base::{Bytes, Part};
use nor_hex::{HexFault, Image, UnionFault};
use nor_job::{BuildFault, Inputs, Source, job_of};
use nor_layout::LayoutFault;
use std::alloc::{AllocError, Global};
use std::process::Abort;
use test_samples::texts::IMAGE;

/// 32 bytes at addresses far apart.
const FAR_APART: &[u8] = b":080000000102030405060708D4\n:081000000102030405060708C4\n\
    :082000000102030405060708B4\n:083000000102030405060708A4\n:00000001FF\n";

/// Twenty regions.
const MANY: &[u8] =
    b"0:0 r0\n1:1 r1\n2:2 r2\n3:3 r3\n4:4 r4\n5:5 r5\n6:6 r6\n7:7 r7\n8:8 r8\n9:9 r9\n\
    0:0 s0\n1:1 s1\n2:2 s2\n3:3 s3\n4:4 s4\n5:5 s5\n6:6 s6\n7:7 s7\n8:8 s8\n9:9 s9\n";

/// Reads an image, a layout and a job. `AllocError` where memory is refused; any other fault ends
/// the test.
fn read_each(rt: &impl Abort, alloc: Global) -> Result<(), AllocError> {
    reads_far_apart(rt, alloc)?;
    lays_together(rt, alloc)?;
    chooses_some(rt, alloc)?;
    gives_the_job(rt, alloc)
}

fn reads_far_apart(rt: &impl Abort, alloc: Global) -> Result<(), AllocError> {
    match nor_hex::read(alloc, FAR_APART) {
        Ok(image) => same(rt, "bytes far apart", image.count(), 32),
        Err(fault) => {
            same(rt, "of an image", fault, HexFault::Memory);
            return Err(AllocError);
        }
    }
    Ok(())
}

/// Lays 01h and 02h from 10h on together with 02h and 03h from 11h on, and then with 04h and
/// 03h there.
fn lays_together(rt: &impl Abort, alloc: Global) -> Result<(), AllocError> {
    let first = made(rt, alloc, 0x10, [1, 2])?;
    let second = made(rt, alloc, 0x11, [2, 3])?;
    let both = match first.union(alloc, &second) {
        Ok(both) => both.copied(alloc)?,
        Err(fault) => {
            same(rt, "of a union", fault, UnionFault::Memory);
            return Err(AllocError);
        }
    };
    same(rt, "bytes of both", both.count(), 3);
    same(rt, "the last of them", both.at(0x12), Some(3));
    let other = made(rt, alloc, 0x11, [4, 3])?;
    match both.union(alloc, &other) {
        Ok(_) => holds(rt, "two bytes at one address", false),
        Err(fault) => same(
            rt,
            "two bytes",
            fault,
            UnionFault::Conflict { address: 0x11 },
        ),
    }
    Ok(())
}

/// The image of two bytes.
fn made(rt: &impl Abort, alloc: Global, at: u8, bytes: [u8; 2]) -> Result<Image, AllocError> {
    match Image::of_bytes(alloc, u32::from(at), &bytes) {
        Ok(image) => Ok(image),
        Err(fault) => {
            same(rt, "of bytes", fault, HexFault::Memory);
            Err(AllocError)
        }
    }
}

/// Names as the caller of `choose` has them.
pub(crate) fn owned(alloc: Global, names: &str) -> Result<Vec<Bytes>, AllocError> {
    let mut owned = Vec::new(alloc);
    for name in names.split_whitespace() {
        owned.push(Bytes::new(Vec::from_slice(alloc, name.as_bytes())?))?;
    }
    Ok(owned)
}

/// Reads many regions, and chooses some of them.
fn chooses_some(rt: &impl Abort, alloc: Global) -> Result<(), AllocError> {
    let names = owned(alloc, "r0 r1 r2 r3 r4 s5 s6 s7 s8")?;
    match nor_layout::read(alloc, MANY).and_then(|layout| layout.choose(alloc, &names)) {
        Ok(chosen) => holds(rt, "what is chosen", chosen.has(8) && !chosen.has(9)),
        Err(fault) => {
            same(rt, "of a layout", fault, LayoutFault::Memory);
            return Err(AllocError);
        }
    }
    Ok(())
}

/// The job of a layout's region on the small chip.
fn gives_the_job(rt: &impl Abort, alloc: Global) -> Result<(), AllocError> {
    let names = owned(alloc, "a")?;
    let inputs = Inputs {
        hex: IMAGE.as_bytes(),
        image: None,
        layout: Some(b"0:fff a"),
        regions: &names,
        chip: Source::Uniform(8192),
        part: Part::Generic,
        status: None,
        mode4: false,
        quad: false,
        base: 0x100,
        verify: true,
        erased_only: false,
        page: None,
    };
    match job_of(alloc, &inputs, 8192) {
        Ok(job) => holds(rt, "a job", job.verify),
        Err(fault) => {
            same(rt, "of a job", fault, BuildFault::Memory);
            return Err(AllocError);
        }
    }
    Ok(())
}

#[test]
fn a_refused_growth_is_memory(rt: HostRuntime) {
    let _ = read_each(&rt, rt.alloc());
}

#[test]
fn reads_all(rt: HostRuntime) {
    holds(&rt, "memory", read_each(&rt, rt.alloc()).is_ok());
}
