//! What the commands of norprog have in common: what stands on a command line, the forms of its
//! values, the chip and the files that it names, refusals with their lines and statuses, and the
//! numbers of what goes wrong (docs/FORMATS.md, section 9).
#![tactic(auto)]

mod chip;
mod content;
mod faults;
mod given;
mod image;
mod inputs;
mod join;
mod looked;
mod request;
mod rules;
mod setup;
mod values;
mod wrongs;

pub use chip::{Chip, chip_of, optional_number, optional_status, source_of};
pub use content::read_content;
pub use faults::{FileName, Gap, Length, Refusal, Stray, answered, refuse, refuse_lines};
pub use given::{
    Aim, BuildArgs, CheckArgs, ChipArgs, DrawArgs, FlashArgs, Given, HexArgs, ImageArgs, ListArgs,
    OutFile, PlanArgs, PlayArgs, ReadArgs, RunArgs, ScriptArgs, SetupArgs,
};
pub use image::{
    ImageData, ImageFile, Place, fills_chip, first_of, image_data, images_of, path_of,
};
pub use inputs::{Texts, inputs_of};
pub use join::{given_image, joined};
pub use looked::look_through;
pub use request::{Request, request_of};
pub use rules::{ImageRules, job_rules, refuse_image, refuse_partial};
pub use setup::{Setup, known_chip, setup_inputs, setup_of};
pub use values::{base, decimal, limit, part, status};
pub use wrongs::wrong_number;
