//! What the values of a command line of `flash` ask for.

ghost use Rattle.std.specs.Prelude.{◌≡◌, is_some, option_map, IfSome};
ghost use Rattle.norprog_flash.specs.Request.{asked_before, asked_image, is_well_formed};
ghost use Rattle.norprog_flash.specs.Request.{tells_its_blocks};
ghost use Rattle.norprog_flash.specs.Request.{read_args, rules_of};
ghost use Rattle.norprog_common.specs.Image.{image_in};
ghost use Rattle.norprog_flash.specs.Request.{AsksFor};

use nor_base::Bytes;
use norprog_common::{
    Aim, FlashArgs, ImageArgs, ImageFile, ImageRules, ReadArgs, base, fills_chip, first_of,
};
use norprog_read::ReadRequest;

/// What `flash` is asked for: each value is of its form.
#[derive(Drop)]
pub struct FlashRequest<'a> {
    /// How the chip is read.
    pub read: ReadRequest<'a>,
    /// The first file of the image; none where each byte is to be FFh.
    pub image: Option<ImageFile<'a>>,
    /// All of its files.
    pub images: &'a ImageArgs<'a>,
    pub layout: Option<&'a str>,
    pub base: u32,
    /// The name of the file that the content is saved in; empty where it is only compared.
    pub before: &'a str,
    /// The name of the file that has what the chip held before the first try, where work is
    /// resumed.
    pub resume: Option<&'a str>,
    pub erased_only: bool,
    /// What the image has to give.
    pub rules: ImageRules,
    /// Whether only the part of the chip around the image's bytes is read.
    pub near: bool,
    /// What is to be done with the chip.
    pub aim: Aim,
    pub regions: &'a [Bytes],
    /// The texts that ask for it.
    pub texts: &'a FlashArgs<'a>,
}

/// The request that the values spell. None where one isn't of its form, or one that has to be there
/// isn't, or a part is to be read of a chip that its own tables don't tell.
pub fn request_of<'a>(given: &'a FlashArgs<'a>) -> Option<FlashRequest<'a>>
    ensures forms { is_some result ≡ is_well_formed given.now }
    ensures values { IfSome result (λ request. AsksFor given.now request) }
{
    if !tells_its_blocks(given) {
        return None;
    }
    Some(FlashRequest {
        read: norprog_read::request_of(read_args(given))?,
        image: file_of(given)?,
        images: &given.image,
        layout: given.layout,
        base: base(given.base.unwrap_or("0"))?,
        before: before_of(given)?,
        resume: given.resume,
        erased_only: given.erased_only,
        rules: rules_of(given),
        near: given.near,
        aim: given.aim,
        regions: given.regions.as_slice(),
        texts: given,
    })
}

/// Whether all of the chip is read, or its own tables tell how much an erase changes.
fn tells_its_blocks(given: &FlashArgs<'_>) -> bool
    ensures { result ≡ tells_its_blocks given.now }
{
    !given.near || (given.chip.uniform.is_none() && given.chip.sheet.is_none())
}

/// The name of the file that the content is saved in.
fn before_of<'a>(given: &FlashArgs<'a>) -> Option<&'a str>
    ensures { option_map (λ t. t.now) result ≡ asked_before given.now }
{
    match given.aim {
        Aim::Compare => Some(""),
        Aim::Work | Aim::Plan => given.before,
    }
}

/// The image's first file; none where each byte is to be FFh, and either regions are named or all
/// of the chip is.
fn file_of<'a>(given: &FlashArgs<'a>) -> Option<Option<ImageFile<'a>>>
    ensures { option_map (λ file. option_map image_in file) result ≡ asked_image given.now }
{
    if !given.blank {
        return Some(Some(first_of(&given.image)?));
    }
    if given.all == given.regions.is_empty() {
        Some(None)
    } else {
        None
    }
}

/// What the image has to give: as many bytes as the chip has, where that is asked for; all of each
/// named region and nothing off the chip, except where the values allow that, or it is blank.
fn rules_of(given: &FlashArgs<'_>) -> ImageRules
    ensures { result ≡ rules_of given.now }
{
    ImageRules {
        exact: fills_chip(&given.image),
        strict: given.strict,
        full: !given.partial && !given.blank,
        inside: !given.beyond && !given.blank,
        lands: !given.blank,
    }
}

/// What a command line of `read` would have that reads the chip so, and saves what it holds.
fn read_args<'a>(given: &FlashArgs<'a>) -> ReadArgs<'a>
    ensures { result ≡ read_args given.now }
{
    ReadArgs {
        chip: given.chip,
        page: given.page,
        mode4: given.mode4,
        device: given.device,
        limit: given.limit,
        tables: None,
        out: given.before,
        raw: given.raw,
        fresh: given.fresh,
        any_size: given.any_size,
        repeats: given.repeats,
        expect_id: given.expect_id,
    }
}
