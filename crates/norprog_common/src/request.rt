//! What the values of a command line ask for.

ghost use Rattle.std.specs.Prelude.{◌≡◌, is_some, IfSome};
ghost use Rattle.norprog_common.specs.Request.{is_well_formed, AsksFor};

use crate::chip::{Chip, chip_of, optional_number, optional_status};
use crate::given::{Given, ImageArgs};
use crate::image::{ImageFile, fills_chip, first_of};
use crate::rules::{ImageRules, job_rules};
use crate::values::{base, part};
use nor_base::{Bytes, Part};

/// The job that is asked for: each value is of its form.
#[derive(Drop)]
pub struct Request<'a> {
    /// The first file of the image.
    pub image: ImageFile<'a>,
    /// All of them.
    pub images: ImageArgs<'a>,
    pub layout: Option<&'a str>,
    pub chip: Chip<'a>,
    pub part: Part,
    pub status: Option<u32>,
    pub mode4: bool,
    pub quad: bool,
    pub base: u32,
    pub content: &'a str,
    pub verify: bool,
    pub erased_only: bool,
    /// Bytes of the chip's page, where its meaning only says the least that they may be.
    pub page: Option<u32>,
    /// What the image has to give.
    pub rules: ImageRules,
    pub regions: Vec<Bytes>,
}

/// The job that the values spell, or None where one isn't of its form.
pub fn request_of<'a>(given: Given<'a>) -> Option<Request<'a>>
    ensures forms { is_some result ≡ is_well_formed given.entry }
    ensures values { IfSome result (λ request. AsksFor given.entry request) }
{
    let image = first_of(&given.image)?;
    let exact = fills_chip(&given.image);
    Some(Request {
        image,
        images: given.image,
        layout: given.layout,
        chip: chip_of(given.sfdp, given.uniform, given.sheet, given.bits)?,
        part: part(given.part.unwrap_or("generic"))?,
        status: optional_status(given.status)?,
        mode4: given.mode4,
        quad: given.quad,
        base: base(given.base.unwrap_or("0"))?,
        content: given.content?,
        verify: given.verify,
        erased_only: given.erased_only,
        page: optional_number(given.page)?,
        rules: job_rules(given.strict, given.whole, exact),
        regions: given.regions,
    })
}
