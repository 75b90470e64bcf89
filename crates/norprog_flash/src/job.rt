//! What is to be done on which chip.

ghost use Rattle.std.specs.Prelude.{◌≡◌};
ghost use Rattle.norprog_flash.specs.Near.{goes_near, may_go_on};
ghost use Rattle.norprog_flash.specs.Task.{imaged_task, works};
ghost use Rattle.norprog_read.specs.Chip.{task_chip};
ghost use Rattle.nor_job.specs.Task.{origin_of};

use crate::dump::Dump;
use nor_base::Bytes;
use nor_hex::Image;
use nor_job::{Inputs, Source};
use norprog_common::{Aim, FlashArgs, ImageRules};
use norprog_read::{Ask, Known};

/// What is to be done on which chip.
#[derive(Clone, Copy)]
pub struct Job<'a> {
    /// What is asked of the chip; its content is.
    pub ask: Ask<'a>,
    /// Only the windows are read in which the image's bytes lie, and those between. It has no
    /// effect where each byte of the chip is to be FFh.
    pub near: bool,
    /// The image, as Intel HEX text.
    pub hex: &'a [u8],
    /// In place of that text the image of several files.
    pub image: Option<&'a Image>,
    /// In place of either each byte of the chip is to be FFh.
    pub blank: bool,
    /// The layout's text, if there is one.
    pub layout: Option<&'a [u8]>,
    /// The names of the chosen regions; with none the whole chip is chosen.
    pub regions: &'a [Bytes],
    /// Chip address 0 takes the image's byte at this address.
    pub base: u32,
    /// What the chip held before the first try, where work is resumed, of what is read.
    pub old: Option<&'a Dump>,
    /// What the image has to give.
    pub rules: ImageRules,
    /// What is to be done with the chip.
    pub aim: Aim,
    /// The texts that the way on is printed of, where there is work to do.
    pub texts: &'a FlashArgs<'a>,
}

/// Whether the work is to be done.
pub(crate) fn works(aim: Aim) -> bool
    ensures { result ≡ works aim }
{
    matches!(aim, Aim::Work)
}

/// Whether no more of the chip is read than the image is for.
pub(crate) fn goes_near(job: &Job<'_>) -> bool
    ensures { result ≡ goes_near job.now }
{
    job.near && !job.blank
}

/// Whether nothing is read past the chip's end: it may be larger than was said, or only a part of
/// it is read.
pub(crate) fn may_go_on(job: &Job<'_>) -> bool
    ensures { result ≡ may_go_on job.now }
{
    job.ask.any_size || goes_near(job)
}

/// The inputs of the job's build, of a chip that gave these tables, with this image in place of the
/// job's, if there is one.
pub(crate) fn inputs_for<'a>(
    job: &'a Job<'_>,
    tables: &'a [u8],
    image: &'a Option<Image>,
) -> Inputs<'a>
    ensures { result ≡ imaged_task job.now tables.now image.now }
{
    Inputs {
        hex: job.hex,
        image: match image {
            Some(image) => Some(image),
            None => job.image,
        },
        layout: job.layout,
        regions: job.regions,
        chip: source_for(job, tables),
        part: job.ask.part,
        status: None,
        mode4: job.ask.mode4,
        quad: false,
        base: job.base,
        verify: true,
        erased_only: job.ask.erased_only,
        page: job.ask.page,
    }
}

/// Where the chip's meaning comes from.
fn source_for<'a>(job: &'a Job<'_>, tables: &'a [u8]) -> Source<'a>
    ensures { origin_of result ≡ task_chip job.now.ask.known job.now.ask.bits.now tables.now }
{
    match job.ask.known {
        Known::Uniform(size) => Source::Uniform(size),
        Known::Sheet(text) => Source::Sheet(text),
        Known::Own | Known::Tables(_) => Source::Sfdp {
            bytes: tables,
            bits: job.ask.bits,
        },
    }
}
