//! Work on a chip behind a serprog programmer: [`do_steps`] has the programmer do the steps of a
//! script, and writes how far that has come to a line, over and over again. [`do_part`] does so for
//! steps that are a part of them. [`PackedSteps`] keeps steps in little memory, and an [`Unpacker`]
//! makes them again.
//!
//! [`within`], [`closes`], [`breaks`] and [`doable`] do nothing. Their contracts are laws of a chip
//! that was read twice, all of it or a part, and of planned work within that, which a programmer
//! then did, or broke off.
#![tactic(auto)]

mod kept;
mod laws;
mod packed;
mod progress;
mod steps;

pub use laws::{breaks, closes, doable, within};
pub use nor_serprog::Halt;
pub use packed::{PackedSteps, Unpacker};
pub use progress::{Progress, bus_bytes};
pub use steps::{are_doable, do_part, do_steps};
