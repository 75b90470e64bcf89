//! The work of `norprog plan`: the lines that tell what a build would erase and program, and why,
//! with the times and the picture that are asked for beside them (docs/FORMATS.md, sections 9, 15
//! and 16).
#![tactic(auto)]

mod drawing;
mod outline;
mod regions;
mod sums;

pub use nor_map::Title;
pub use outline::{Shows, Told, tell};
