//! Each command on the files that its request names (docs/FORMATS.md, section 9): it opens them,
//! hands over what they have, and closes them. It alone of a command sees a name.
#![tactic(auto)]

mod asked;
mod asked_device;
mod build_files;
mod check_files;
mod draw_files;
mod flash_files;
mod hex_files;
mod hex_request;
mod job;
mod list_files;
mod plan_files;
mod play_files;
mod read_files;
mod run_files;
mod saved;
mod script_files;
mod sfdp_files;

pub use asked::{
    build_asked, check_asked, draw_asked, hex_asked, list_asked, plan_asked, run_asked,
    script_asked, sfdp_asked,
};
pub use asked_device::{flash_asked, play_asked, read_asked};
pub use build_files::build;
pub use check_files::check;
pub use draw_files::draw;
pub use flash_files::flash;
pub use hex_files::hex;
pub use hex_request::{HexRequest, request_of};
pub use list_files::{ListRequest, list};
pub use plan_files::{PlanRequest, plan};
pub use play_files::play;
pub use read_files::read;
pub use script_files::script;
pub use sfdp_files::meaning_of;
