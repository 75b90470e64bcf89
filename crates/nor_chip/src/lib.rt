//! A chip in memory, and what every device that shows a chip promises.
//!
//! A [`Port`] does one transaction at a time, given by its clocks. [`Chip`] is such a port: it
//! takes an instruction, or refuses it with the [`Wrong`] that applies first, exactly as the
//! definitions of `nor_base` say (W25Q256JV datasheet, JESD216B).
#![tactic(auto)]

mod busy;
mod chip;
pub mod erase;
mod port;
pub mod program;
pub mod rules;

pub use busy::BusyTimes;
pub use chip::Chip;
pub use nor_base::{PortFault, Wrong};
pub use port::Port;
pub use program::may_program;
