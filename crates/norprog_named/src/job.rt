//! The files of a job.

ghost use Rattle.std.specs.Prelude.{◌≡◌, ◌∷◌, [], drop, map, option_map};
ghost use Rattle.norprog_common.specs.Chip.{origin_of};
ghost use Rattle.norprog_common.specs.Held.{held_in, task_by};
ghost use Rattle.norprog_common.specs.Image.{image_in, images_in};
ghost use Rattle.norprog_files.specs.Files.{Did};
ghost use Rattle.norprog_named.specs.Gathered.{Gathers, Joins, JoinsAll};
ghost use Rattle.norprog_named.specs.Job.{OpensJob, Reading, Reads};
ghost use Rattle.norprog_named.specs.Opening.{IsJobOf, Opening};
ghost use Rattle.norprog_named.specs.Job.{ReadsImage, ReadsNamed, ReadsTables, chip_files};
ghost use Rattle.norprog_named.specs.Job.{image_file, job_files, named_by, origin_files};

use nor_hex::Image;
use norprog_common::{
    Chip, FileName, ImageArgs, ImageData, ImageFile, Refusal, Request, Texts, given_image,
    image_data, images_of, joined,
};
use norprog_files::{Files, Trail};
use std::alloc::Global;

/// Opens the files that a job reads, in their order: what those hold that are read whole, the
/// content, and how many bytes that has. The image's further files come last.
pub(crate) fn open_job<F: Files>(
    alloc: Global,
    files: &F,
    trail: &mut F::Trail,
    request: &Request<'_>,
) -> Result<(Texts, F::Input, u64), Refusal>
    ensures did { Did (F.Trail.did trail.old) (F.Trail.did trail.new) (Opening request.now
        (λ job. IsJobOf request.now (task_by request.now (held_in job.0))
        (F.Input.ahead job.1) job.2) result) }
{
    let (read, content, len) = open_files(alloc, files, trail, request)?;
    let Texts {
        hex: bytes,
        layout,
        sfdp,
        ..
    } = read;
    let lay = bytes_in(&layout);
    let first = image_data(alloc, request.image, request.base, lay, bytes)?;
    let whole = whole_image(
        alloc,
        files,
        trail,
        &request.images,
        request.base,
        lay,
        first,
    )?;
    let (hex, image) = whole.into_parts(alloc);
    let texts = Texts {
        hex,
        image,
        layout,
        sfdp,
    };
    Ok((texts, content, len))
}

/// The same, with the bytes of the image's first file in place of what they give.
fn open_files<F: Files>(
    alloc: Global,
    files: &F,
    trail: &mut F::Trail,
    request: &Request<'_>,
) -> Result<(Texts, F::Input, u64), Refusal>
    ensures did { Did (F.Trail.did trail.old) (F.Trail.did trail.new) (Reading
        (job_files request.now) (λ job. OpensJob request.now (held_in job.0)
        (F.Input.ahead job.1) job.2) result) }
{
    let hex = read_image(alloc, files, trail, request.image)?;
    let layout = read_named(alloc, files, trail, request.layout, FileName::Layout)?;
    let sfdp = read_tables(alloc, files, trail, request.chip)?;
    let (content, len) = files.open(trail, request.content, FileName::Content)?;
    let read = Texts {
        hex,
        image: None,
        layout,
        sfdp,
    };
    Ok((read, content, len))
}

/// Reads the file of an image whole.
pub(crate) fn read_image<F: Files>(
    alloc: Global,
    files: &F,
    trail: &mut F::Trail,
    image: ImageFile<'_>,
) -> Result<Vec<u8>, Refusal>
    ensures { Did (F.Trail.did trail.old) (F.Trail.did trail.new) (Reading
        (image_file (image_in image.entry) ∷ [])
        (λ bytes. ReadsImage (image_in image.entry) bytes.items) result) }
{
    match image {
        ImageFile::Hex(path) => files.read(trail, alloc, path, FileName::Hex),
        ImageFile::Bin { place: _, path } => files.read(trail, alloc, path, FileName::Bin),
    }
}

/// What all files of an image give together, of which the first gives this.
pub(crate) fn whole_image<F: Files>(
    alloc: Global,
    files: &F,
    trail: &mut F::Trail,
    given: &ImageArgs<'_>,
    base: u32,
    layout: Option<&[u8]>,
    first: ImageData,
) -> Result<ImageData, Refusal>
    ensures { Did (F.Trail.did trail.old) (F.Trail.did trail.new)
        (Gathers base (option_map (λ t. t.now) layout.entry) first (drop 1 (images_in given.now))
        result) }
{
    let Ok(images) = images_of(alloc, given) else {
        return Err(Refusal::MEMORY);
    };
    match images.as_slice().split_first() {
        None => Ok(first),
        Some((_, more)) => gather(alloc, files, trail, more, base, layout, first),
    }
}

/// What these files give together with the first.
fn gather<F: Files>(
    alloc: Global,
    files: &F,
    trail: &mut F::Trail,
    more: &[ImageFile<'_>],
    base: u32,
    layout: Option<&[u8]>,
    first: ImageData,
) -> Result<ImageData, Refusal>
    ensures { Did (F.Trail.did trail.old) (F.Trail.did trail.new)
        (Gathers base (option_map (λ t. t.now) layout.entry) first (map image_in more.now)
        result) }
{
    if more.is_empty() {
        return Ok(first);
    }
    let image = given_image(alloc, first)?;
    let all = join_all(alloc, files, trail, more, base, layout, image)?;
    Ok(ImageData::Image(all))
}

/// The image that this one and all of these files give together.
fn join_all<F: Files>(
    alloc: Global,
    files: &F,
    trail: &mut F::Trail,
    more: &[ImageFile<'_>],
    base: u32,
    layout: Option<&[u8]>,
    image: Image,
) -> Result<Image, Refusal>
    ensures { Did (F.Trail.did trail.old) (F.Trail.did trail.new)
        (JoinsAll base (option_map (λ t. t.now) layout.entry) (map image_in more.now) image
        result) }
{
    match more.split_first() {
        None => Ok(image),
        Some((file, rest)) => {
            let both = join_file(alloc, files, trail, *file, base, layout, &image)?;
            join_all(alloc, files, trail, rest, base, layout, both)
        }
    }
}

/// The image that this one and a file give together.
fn join_file<F: Files>(
    alloc: Global,
    files: &F,
    trail: &mut F::Trail,
    file: ImageFile<'_>,
    base: u32,
    layout: Option<&[u8]>,
    image: &Image,
) -> Result<Image, Refusal>
    ensures { Did (F.Trail.did trail.old) (F.Trail.did trail.new)
        (Joins base (option_map (λ t. t.now) layout.entry) (image_in file.entry) image.now
        result) }
{
    let bytes = read_image(alloc, files, trail, file)?;
    let beside = image_data(alloc, file, base, layout, bytes)?;
    joined(alloc, image, beside)
}

pub(crate) fn bytes_in(bytes: &Option<Vec<u8>>) -> Option<&[u8]>
    ensures { option_map (λ text. text.now) result
        ≡ option_map (λ held. held.items) bytes.entry.now }
{
    match bytes {
        Some(bytes) => Some(bytes.as_slice()),
        None => None,
    }
}

/// Reads a file whole, where one is named.
pub(crate) fn read_named<F: Files>(
    alloc: Global,
    files: &F,
    trail: &mut F::Trail,
    path: Option<&str>,
    name: FileName,
) -> Result<Option<Vec<u8>>, Refusal>
    ensures { Did (F.Trail.did trail.old) (F.Trail.did trail.new) (Reading
        (named_by name (option_map (λ t. t.now) path.entry))
        (λ bytes. Reads (option_map (λ t. t.now) path.entry)
        (option_map (λ held. held.items) bytes)) result) }
{
    match path {
        Some(path) => Ok(Some(files.read(trail, alloc, path, name)?)),
        None => Ok(None),
    }
}

/// Reads the file of the tables of a chip, or of its sheet, where it has one.
pub(crate) fn read_tables<F: Files>(
    alloc: Global,
    files: &F,
    trail: &mut F::Trail,
    chip: Chip<'_>,
) -> Result<Vec<u8>, Refusal>
    ensures { Did (F.Trail.did trail.old) (F.Trail.did trail.new) (Reading
        (origin_files (origin_of chip.entry))
        (λ bytes. ReadsTables (origin_of chip.entry) bytes.items) result) }
{
    match chip {
        Chip::Sfdp { file, bits: _ } => files.read(trail, alloc, file, FileName::Sfdp),
        Chip::Uniform(_) => Ok(Vec::new(alloc)),
        Chip::Sheet { file } => files.read(trail, alloc, file, FileName::Sheet),
    }
}

/// The same of a chip that is named.
pub(crate) fn read_chip<F: Files>(
    alloc: Global,
    files: &F,
    trail: &mut F::Trail,
    chip: Option<Chip<'_>>,
) -> Result<Vec<u8>, Refusal>
    ensures { Did (F.Trail.did trail.old) (F.Trail.did trail.new) (Reading
        (chip_files (option_map origin_of chip.entry))
        (λ tables. ReadsNamed (option_map origin_of chip.entry) tables.items) result) }
{
    match chip {
        Some(chip) => read_tables(alloc, files, trail, chip),
        None => Ok(Vec::new(alloc)),
    }
}
