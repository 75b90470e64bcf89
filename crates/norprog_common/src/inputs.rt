//! From the files of a job to the library's inputs.

ghost use Rattle.std.specs.Prelude.{◌≡◌, option_map};
ghost use Rattle.norprog_common.specs.Held.{task_by, held_in};

use crate::chip::source_of;
use crate::request::Request;
use nor_hex::Image;
use nor_job::Inputs;

/// What the input files of a job hold, the content aside.
#[derive(Drop)]
pub struct Texts {
    /// The text of the image's one file of Intel HEX.
    pub hex: Vec<u8>,
    /// In place of that the image of a raw file, or of several files.
    pub image: Option<Image>,
    pub layout: Option<Vec<u8>>,
    /// The chip's tables, or the text of its sheet; nothing for a chip of a size.
    pub sfdp: Vec<u8>,
}

/// The inputs of the request's job.
pub fn inputs_of<'a>(request: &'a Request<'_>, texts: &'a Texts) -> Inputs<'a>
    ensures { result ≡ task_by request.entry.now (held_in texts.entry.now) }
{
    Inputs {
        hex: texts.hex.as_slice(),
        image: texts.image.as_ref(),
        layout: bytes_or_none(&texts.layout),
        regions: request.regions.as_slice(),
        chip: source_of(request.chip, texts.sfdp.as_slice()),
        part: request.part,
        status: request.status,
        mode4: request.mode4,
        quad: request.quad,
        base: request.base,
        verify: request.verify,
        erased_only: request.erased_only,
        page: request.page,
    }
}

fn bytes_or_none(bytes: &Option<Vec<u8>>) -> Option<&[u8]>
    ensures { option_map (λ text. text.now) result
        ≡ option_map (λ held. held.items) bytes.entry.now }
{
    match bytes {
        Some(bytes) => Some(bytes.as_slice()),
        None => None,
    }
}
