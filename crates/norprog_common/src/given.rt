//! What stands on a command line: the texts of its values, as they were written.

use nor_base::Bytes;

/// The files of an image.
#[derive(Drop)]
pub struct ImageArgs<'a> {
    /// Of Intel HEX.
    pub hex: Vec<&'a str>,
    /// Raw ones, as `PLACE=FILE` or `FILE`.
    pub bin: Vec<&'a str>,
}

/// Of the job to be done, of whichever command.
#[derive(Drop)]
pub struct Given<'a> {
    pub image: ImageArgs<'a>,
    pub layout: Option<&'a str>,
    pub sfdp: Option<&'a str>,
    pub uniform: Option<&'a str>,
    pub sheet: Option<&'a str>,
    pub bits: Option<&'a str>,
    pub part: Option<&'a str>,
    pub status: Option<&'a str>,
    pub mode4: bool,
    pub quad: bool,
    pub base: Option<&'a str>,
    pub content: Option<&'a str>,
    pub verify: bool,
    pub erased_only: bool,
    pub page: Option<&'a str>,
    pub strict: bool,
    pub whole: bool,
    pub regions: Vec<Bytes>,
}

/// What is to be done with a chip that was read.
#[derive(Clone, Copy)]
pub enum Aim {
    /// The work.
    Work,
    /// Nothing: only the plan of the work is printed.
    Plan,
    /// Nothing: what it holds is compared with what the work would leave.
    Compare,
}

/// A file that is to be made.
#[derive(Clone, Copy)]
pub struct OutFile<'a> {
    pub path: &'a str,
    /// It may be written over, whatever it holds.
    pub force: bool,
}

/// Of `build`: the job, and the script's file.
#[derive(Drop)]
pub struct BuildArgs<'a> {
    pub job: Given<'a>,
    pub out: Option<OutFile<'a>>,
}

/// Of `plan`: the job, whether the times and the regions are reported, and the map's file.
#[derive(Drop)]
pub struct PlanArgs<'a> {
    pub job: Given<'a>,
    pub times: bool,
    pub regions: bool,
    pub map: Option<OutFile<'a>>,
}

/// Of `check`: the job, the name of the script's file, and whether a chip is reported that shows a
/// no.
#[derive(Drop)]
pub struct CheckArgs<'a> {
    pub job: Given<'a>,
    pub script: Option<&'a str>,
    pub witness: bool,
}

/// Of `sfdp`.
#[derive(Clone, Copy)]
pub struct ChipArgs<'a> {
    pub sfdp: Option<&'a str>,
    pub uniform: Option<&'a str>,
    pub sheet: Option<&'a str>,
    pub bits: Option<&'a str>,
    pub part: Option<&'a str>,
}

/// The chip of a command that does no build, and how it begins.
#[derive(Clone, Copy)]
pub struct SetupArgs<'a> {
    pub chip: ChipArgs<'a>,
    pub status: Option<&'a str>,
    pub mode4: bool,
    pub quad: bool,
    pub erased_only: bool,
}

/// Of `list`.
#[derive(Clone, Copy)]
pub struct ListArgs<'a> {
    pub setup: SetupArgs<'a>,
    pub script: Option<&'a str>,
}

/// Of `draw`.
#[derive(Clone, Copy)]
pub struct DrawArgs<'a> {
    pub script: Option<&'a str>,
    pub from: Option<&'a str>,
    pub steps: Option<&'a str>,
    pub out: Option<OutFile<'a>>,
}

/// Of `hex`.
#[derive(Clone, Copy)]
pub struct HexArgs<'a> {
    pub bin: Option<&'a str>,
    pub at: Option<&'a str>,
    pub out: Option<OutFile<'a>>,
}

/// Of `script`: the chip is that of a listing.
#[derive(Clone, Copy)]
pub struct ScriptArgs<'a> {
    pub setup: SetupArgs<'a>,
    pub log: Option<&'a str>,
    pub without_identity: bool,
    pub out: Option<OutFile<'a>>,
}

/// Of `run`.
#[derive(Clone, Copy)]
pub struct RunArgs<'a> {
    pub setup: SetupArgs<'a>,
    pub content: Option<&'a str>,
    pub script: Option<&'a str>,
    pub busy: Option<&'a str>,
    pub each_busy: Option<&'a str>,
    pub keep: bool,
    pub limit: Option<&'a str>,
    pub page: Option<&'a str>,
    pub out: Option<OutFile<'a>>,
}

/// Of `play`.
#[derive(Clone, Copy)]
pub struct PlayArgs<'a> {
    pub setup: SetupArgs<'a>,
    pub content: Option<&'a str>,
    pub script: Option<&'a str>,
    pub page: Option<&'a str>,
    pub device: Option<&'a str>,
    pub limit: Option<&'a str>,
    pub trust: bool,
}

/// Of `read`.
#[derive(Clone, Copy)]
pub struct ReadArgs<'a> {
    pub chip: ChipArgs<'a>,
    pub page: Option<&'a str>,
    pub mode4: bool,
    pub device: Option<&'a str>,
    pub limit: Option<&'a str>,
    pub tables: Option<&'a str>,
    pub out: Option<&'a str>,
    /// The terminal is said to hand on each byte as it comes.
    pub raw: bool,
    /// The chip's power was just switched on, so it is in the address mode that it begins in.
    pub fresh: bool,
    /// The chip's tables may say another size than `--uniform` or the sheet.
    pub any_size: bool,
    /// The halves of what the chip holds may be alike.
    pub repeats: bool,
    /// The identification that the chip has to have.
    pub expect_id: Option<&'a str>,
}

/// Of `flash`.
#[derive(Drop)]
pub struct FlashArgs<'a> {
    pub chip: ChipArgs<'a>,
    pub page: Option<&'a str>,
    pub mode4: bool,
    pub device: Option<&'a str>,
    pub limit: Option<&'a str>,
    pub image: ImageArgs<'a>,
    pub layout: Option<&'a str>,
    pub base: Option<&'a str>,
    pub before: Option<&'a str>,
    pub resume: Option<&'a str>,
    pub erased_only: bool,
    pub strict: bool,
    /// A chosen region may be given only in part.
    pub partial: bool,
    /// Bytes of the image may lie off the chip.
    pub beyond: bool,
    /// What is to be done with the chip.
    pub aim: Aim,
    /// No image is named: each byte is to be FFh.
    pub blank: bool,
    /// All of the chip is chosen.
    pub all: bool,
    /// The plan is printed whole.
    pub list: bool,
    /// Only the part of the chip around the image's bytes is read.
    pub near: bool,
    /// As of `read`.
    pub raw: bool,
    /// As of `read`.
    pub fresh: bool,
    /// As of `read`.
    pub any_size: bool,
    /// As of `read`.
    pub repeats: bool,
    /// As of `read`.
    pub expect_id: Option<&'a str>,
    pub regions: Vec<Bytes>,
}
