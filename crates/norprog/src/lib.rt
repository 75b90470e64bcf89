//! Programs a SPI NOR flash chip by a bus script: from an Intel HEX image, a layout with chosen
//! regions and what the chip holds now to the text of a script in which every clock of every
//! transaction stands.
//!
//! [`build`] writes the script. Its contract says what running it on the chip does. [`plan`] writes
//! lines that tell what that script erases, why, and what it programs; a [`Planner`] returns them
//! window after window, and a [`Stepper`] the steps. [`sfdp_text`] writes lines that say what a
//! chip's tables mean.
#![tactic(auto)]

pub mod builder;
mod chip_text;
mod lines;
mod planner;
pub mod report;
mod stepper;
mod windows;

pub use builder::build;
pub use chip_text::sfdp_text;
pub use lines::plan;
pub use nor_base::{ByteIn, ByteOut, Bytes, Failed, FromRead, IntoWrite, Nowhere, Part, Strategy};
pub use nor_hex::HexFault;
pub use nor_job::{BuildFault, Inputs, Source};
pub use nor_layout::LayoutFault;
pub use nor_sfdp::SfdpFault;
pub use planner::{Planner, planned_lines};
pub use report::{Report, write_report};
pub use stepper::Stepper;
