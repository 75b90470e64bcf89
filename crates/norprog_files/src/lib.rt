//! The files that a request names: who opens them, makes them and has them go out (docs/FORMATS.md,
//! section 9). A command is handed what is opened here, and no name.
#![tactic(auto)]

mod disk;
mod files;
mod guards;
mod replaced;
mod system;
mod terminal;
mod trouble;

pub use disk::{Calls, Disk, FileId, Host, How, Kind, Stat, Unkept};
pub use files::{Files, Trail};
pub use replaced::OutKind;
pub use system::{Places, System};
