//! The lines on what the image gives the chosen regions.

ghost use Rattle.std.specs.Prelude.{◌≡◌, ◌++◌, ℕ, IfOk, IfErr};
ghost use Rattle.nor_base.specs.Device.{Writes, Counts};
ghost use Rattle.nor_hex.specs.Image.{byte_at};
ghost use Rattle.nor_job.specs.Job.{IsJob};
ghost use Rattle.nor_job.specs.declared.fault.BuildFault.TheVariants.{Memory};
ghost use Rattle.norprog_plan.specs.Regions.{EndsWith, region_line, region_lines, share_line};

use itoa::Buffer;
use nor_base::{ByteOut, Failed, IntoWrite, put_parts};
use nor_hex::Image;
use nor_job::{BuildFault, Inputs, Job, chosen_regions};
use nor_layout::Region;
use nor_script::hex_number;
use nor_target::{Share, share_of};
use std::alloc::Global;

/// The text that comes after a plan's lines, with those of the chosen regions where they are asked
/// for. `Memory` where a growth is refused.
pub(crate) fn with_regions(
    alloc: Global,
    inputs: &Inputs<'_>,
    job: &Job,
    regions: bool,
    shown: Vec<u8>,
) -> Result<Vec<u8>, BuildFault>
    ensures told { (len : ℕ) → IsJob inputs.now len job.now
        → IfOk result (λ rest. EndsWith regions inputs.now len shown.items rest.items) }
    ensures memory { IfErr result (λ why. why ≡ Memory) }
{
    if !regions {
        return Ok(shown);
    }
    // the plan was made of these inputs, so no cause is left
    let Ok(chosen) = chosen_regions(alloc, inputs, job.meaning.size) else {
        return Err(BuildFault::Memory);
    };
    add_lines(
        &job.image,
        job.base,
        job.meaning.size,
        chosen.as_slice(),
        IntoWrite::new(shown),
    )
}

/// Adds the lines of these regions to lines in memory. `Memory` where a growth is refused.
fn add_lines(
    image: &Image,
    base: u32,
    size: u32,
    regions: &[Region<'_>],
    mut lines: IntoWrite<Vec<u8>>,
) -> Result<Vec<u8>, BuildFault>
    requires { lines.failed ≡ 0 }
    ensures lines { IfOk result (λ rest. rest.items
        ≡ lines.inner.items ++ region_lines (byte_at image.now) base size regions.now) }
    ensures refused { IfErr result (λ why. why ≡ Memory) }
{
    for region in regions {
        let share = share_of(image, base, size, region);
        add_line(region, share, &mut lines)?;
    }
    Ok(lines.inner)
}

/// Adds the line of a region to lines in memory. `Memory` where a growth is refused.
fn add_line(
    region: &Region<'_>,
    share: Option<Share>,
    lines: &mut IntoWrite<Vec<u8>>,
) -> Result<(), BuildFault>
    requires { lines.old.failed ≡ 0 }
    ensures line { IfOk result (λ _. lines.new.inner.items
        ≡ lines.old.inner.items ++ region_line region.now share) }
    ensures works { IfOk result (λ _. lines.new.failed ≡ 0) }
    ensures refused { IfErr result (λ why. why ≡ Memory) }
{
    match write_line(region, share, lines) {
        Ok(()) => Ok(()),
        Err(_) => Err(BuildFault::Memory),
    }
}

/// Writes the line of a region.
fn write_line<W: ByteOut>(
    region: &Region<'_>,
    share: Option<Share>,
    out: &mut W,
) -> Result<(), Failed>
    ensures bytes { Writes (W.held out.old) (W.held out.new) result (region_line region.now share) }
    ensures count { Counts (W.count out.old) (W.count out.new) result }
{
    let Some(Share { count, first }) = share else {
        return put_parts(out, &[b"region ", region.name, b" empty\n"]);
    };
    write_share(region, count, b" bytes from the image, first ", first, out)
}

/// Writes the line of a region to which the image gives a number of bytes, the first, after these
/// words, at an address.
fn write_share<W: ByteOut>(
    region: &Region<'_>,
    count: u64,
    words: &[u8],
    first: u32,
    out: &mut W,
) -> Result<(), Failed>
    ensures bytes { Writes (W.held out.old) (W.held out.new) result
        (share_line region.now count words.now first) }
    ensures count { Counts (W.count out.old) (W.count out.new) result }
{
    let length = (u64::from(region.end) + 1).saturating_sub(u64::from(region.start));
    let mut counted = Buffer::new();
    let mut whole = Buffer::new();
    put_parts(
        out,
        &[
            b"region ",
            region.name,
            b" ",
            &hex_number(region.start),
            b" ",
            &hex_number(region.end),
            b" ",
            counted.format(count).as_bytes(),
            b" of ",
            whole.format(length).as_bytes(),
            words,
            &hex_number(first),
            b"\n",
        ],
    )
}
