//! The image of a job: its files, as a command line names them, and what each gives.

ghost use Rattle.std.specs.Prelude.{◌≡◌, ◌≢◌, ◌⊎◌, ◌+◌, ◌-◌, ◌<◌, ◌≤◌, ◌^◌, length, option_map};
ghost use Rattle.std.specs.Prelude.{◌++◌, IfErr, IfOk, MatchResult, map, slice_get};
ghost use Rattle.nor_hex.specs.Union.{HasJust};
ghost use Rattle.nor_job.specs.declared.fault.BuildFault.TheVariants.{Memory};
ghost use Rattle.nor_target.specs.Shares.{region_named};
ghost use Rattle.norprog_common.specs.Image.{IsDataOf, IsStart, Misses, MissesIn, RefusesData};
ghost use Rattle.norprog_common.specs.Image.{hex_in, own_in};
ghost use Rattle.norprog_common.specs.Image.{bin_in, fills_chip, image_in, images_in, place_by};
ghost use Rattle.norprog_common.specs.Image.{is_placeless};
ghost use Rattle.norprog_common.specs.Image.{Named, StartsIn, path_of, place_in};
ghost use Rattle.norprog_common.specs.declared.faults.Refusal.TheVariants.{BinLength, BinSize};
ghost use Rattle.norprog_common.specs.declared.faults.Refusal.TheVariants.{Build};

use crate::faults::{Length, Refusal};
use crate::given::ImageArgs;
use crate::values::base as address;
use nor_hex::{Image, fits};
use nor_job::BuildFault;
use nor_layout::Region;
use std::alloc::{AllocError, Global};

/// As few digits as an address has before the `=` of a raw image; fewer are a region's name.
const FEWEST_DIGITS: usize = 5;

/// Where a raw image lies.
#[derive(Clone, Copy)]
pub enum Place<'a> {
    /// From chip address 0 on. It has as many bytes as the chip.
    Chip,
    /// In the region of this name. It has as many bytes.
    Region(&'a str),
    /// From this chip address on.
    At(u32),
}

/// The file of an image.
#[derive(Clone, Copy)]
pub enum ImageFile<'a> {
    /// Intel HEX.
    Hex(&'a str),
    /// Raw bytes.
    Bin { place: Place<'a>, path: &'a str },
}

/// What the files of an image give.
#[derive(Drop)]
pub enum ImageData {
    /// The text of one file of Intel HEX, which isn't read yet.
    Text(Vec<u8>),
    /// The bytes of a raw file, or of several files, at their addresses.
    Image(Image),
}

impl ImageData {
    /// The text, or the image in its place.
    pub fn into_parts(self, alloc: Global) -> (Vec<u8>, Option<Image>)
        ensures text { result.0.items ≡ hex_in self }
        ensures image { result.1 ≡ own_in self }
    {
        match self {
            ImageData::Text(text) => (text, None),
            ImageData::Image(image) => (Vec::new(alloc), Some(image)),
        }
    }
}

/// The first of the files that are named, if there is one.
pub fn first_of<'a>(given: &ImageArgs<'a>) -> Option<ImageFile<'a>>
    ensures { option_map image_in result ≡ slice_get (images_in given.now) 0 }
{
    match (given.hex.as_slice(), given.bin.as_slice()) {
        ([path, ..], _) => Some(ImageFile::Hex(*path)),
        ([], [text, ..]) => Some(bin_of(*text)),
        ([], []) => None,
    }
}

/// All of them, those of Intel HEX first.
pub fn images_of<'a>(alloc: Global, given: &ImageArgs<'a>) -> Result<Vec<ImageFile<'a>>, AllocError>
    ensures { IfOk result (λ images. map image_in images.items ≡ images_in given.now) }
{
    let mut images = Vec::new(alloc);
    for path in given.hex.as_slice() {
        images.push(ImageFile::Hex(*path))?;
    }
    add_raw(given.bin.as_slice(), &mut images)?;
    Ok(images)
}

/// Adds the raw ones.
fn add_raw<'a>(texts: &[&'a str], images: &mut Vec<ImageFile<'a>>) -> Result<(), AllocError>
    ensures { IfOk result (λ _. map image_in images.new.items
        ≡ map image_in images.old.items ++ map (λ text. bin_in text.now) texts.now) }
{
    for text in texts {
        images.push(bin_of(*text))?;
    }
    Ok(())
}

/// The raw image of a `--bin`.
fn bin_of(text: &str) -> ImageFile<'_>
    ensures { image_in result ≡ bin_in text.entry.now }
{
    match text.split_once('=') {
        Some((place, path)) => ImageFile::Bin {
            place: place_of(place),
            path,
        },
        None => ImageFile::Bin {
            place: Place::Chip,
            path: text,
        },
    }
}

/// The place before the `=`: five to eight hexadecimal digits are an address, else it is a
/// region's name.
fn place_of(text: &str) -> Place<'_>
    ensures { place_in result ≡ place_by text.entry.now }
{
    if text.len() < FEWEST_DIGITS {
        return Place::Region(text);
    }
    match address(text) {
        Some(at) => Place::At(at),
        None => Place::Region(text),
    }
}

/// Whether the image has to have as many bytes as the chip: a raw file has no place.
pub fn fills_chip(given: &ImageArgs<'_>) -> bool
    ensures { result ≡ fills_chip given.now }
{
    given.bin.iter().any(|text| is_placeless(bin_of(*text)))
}

/// Whether it lies all over the chip.
fn is_placeless(image: ImageFile<'_>) -> bool
    ensures { result ≡ is_placeless (image_in image.entry) }
{
    matches!(
        image,
        ImageFile::Bin {
            place: Place::Chip,
            ..
        }
    )
}

/// Its path.
pub fn path_of(image: ImageFile<'_>) -> &str
    ensures { result.now ≡ path_of (image_in image.entry) }
{
    match image {
        ImageFile::Hex(path) => path,
        ImageFile::Bin { place: _, path } => path,
    }
}

/// What the file of an image gives that has these bytes: raw bytes lie from `base` plus their place
/// on.
///
/// `BinRegion` where no region has the name; `Layout` where the layout that has to have it is none;
/// `BinLength` where the region has another size; `BinSize` where a byte would lie past FFFFFFFFh;
/// `Memory`.
pub fn image_data(
    alloc: Global,
    image: ImageFile<'_>,
    base: u32,
    layout: Option<&[u8]>,
    bytes: Vec<u8>,
) -> Result<ImageData, Refusal>
    ensures gives { IfOk result (IsDataOf base (option_map (λ t. t.now) layout.entry) bytes.items
        (image_in image.entry)) }
    ensures refused { IfErr result (RefusesData base (option_map (λ t. t.now) layout.entry)
        bytes.items (image_in image.entry)) }
{
    match image {
        ImageFile::Hex(_) => Ok(ImageData::Text(bytes)),
        ImageFile::Bin { place, path: _ } => {
            let start = start_of(alloc, place, layout, bytes.len() as u64)?;
            let image = raw_image(alloc, base, start, bytes.as_slice())?;
            Ok(ImageData::Image(image))
        }
    }
}

/// The chip address at which a raw image of this length begins.
fn start_of(
    alloc: Global,
    place: Place<'_>,
    layout: Option<&[u8]>,
    len: u64,
) -> Result<u32, Refusal>
    ensures start { IfOk result (IsStart (option_map (λ t. t.now) layout.entry) len
        (place_in place.entry)) }
    ensures refused { IfErr result (Misses (option_map (λ t. t.now) layout.entry) len
        (place_in place.entry)) }
{
    match place {
        Place::Chip => Ok(0),
        Place::At(start) => Ok(start),
        Place::Region(name) => region_start(alloc, name.as_bytes(), layout, len),
    }
}

/// The same of a region of this name.
fn region_start(alloc: Global, name: &[u8], layout: Option<&[u8]>, len: u64) -> Result<u32, Refusal>
    ensures start { IfOk result (IsStart (option_map (λ t. t.now) layout.entry) len
        (Named name.now)) }
    ensures refused { IfErr result (Misses (option_map (λ t. t.now) layout.entry) len
        (Named name.now)) }
{
    let Some(text) = layout else {
        return Err(Refusal::BinRegion);
    };
    match nor_layout::read(alloc, text) {
        Ok(layout) => sized_start(layout.regions(), name, len),
        Err(fault) => Err(Refusal::Build(BuildFault::from(fault))),
    }
}

/// The start of the region of this name, which has to have this size.
fn sized_start(regions: &[Region<'_>], name: &[u8], len: u64) -> Result<u32, Refusal>
    ensures { MatchResult result (StartsIn regions.now name.now len)
        (MissesIn regions.now name.now len) }
{
    match region_named(regions, name) {
        Some(region) => start_in(&region, len),
        None => Err(Refusal::BinRegion),
    }
}

/// The region of this name, byte for byte.
fn region_named<'a>(regions: &[Region<'a>], name: &[u8]) -> Option<Region<'a>>
    ensures { result ≡ region_named regions.now name.now }
{
    for region in regions {
        if region.name == name {
            return Some(Region {
                start: region.start,
                end: region.end,
                name: region.name,
            });
        }
    }
    None
}

/// The start of a region, which has to have this size.
fn start_in(region: &Region<'_>, len: u64) -> Result<u32, Refusal>
    ensures start { IfOk result (λ start. (start ≡ region.now.start)
        × (len ≡ region.now.end + 1 - region.now.start)) }
    ensures refused { IfErr result (λ why. (why ≡ BinLength (record {
      given = len;
      wanted = region.now.end + 1 - region.now.start;
    }))
        × (len ≢ region.now.end + 1 - region.now.start)) }
{
    let wanted = (u64::from(region.end) + 1).saturating_sub(u64::from(region.start));
    if len == wanted {
        Ok(region.start)
    } else {
        Err(Refusal::BinLength(Length { given: len, wanted }))
    }
}

/// These bytes from `base` plus `start` on.
fn raw_image(alloc: Global, base: u32, start: u32, bytes: &[u8]) -> Result<Image, Refusal>
    ensures image { IfOk result (λ image. (base + start + length bytes.now ≤ 2 ^ 32)
        × HasJust (base + start) bytes.now image) }
    ensures refused { IfErr result (λ why. ((why ≡ BinSize) × ((2 ^ 32 ≤ base + start)
        ⊎ (2 ^ 32 < base + start + length bytes.now))) ⊎ (why ≡ Build Memory)) }
{
    let Some(first) = base.checked_add(start) else {
        return Err(Refusal::BinSize);
    };
    if !fits(bytes.len() as u64, first) {
        return Err(Refusal::BinSize);
    }
    match Image::of_bytes(alloc, first, bytes) {
        Ok(image) => Ok(image),
        Err(_) => Err(Refusal::MEMORY),
    }
}
