//! Plays the steps of a bus script on anything that shows a chip: a [`nor_chip::Port`].
//!
//! [`play`] plays a list of steps. A [`StepPlayer`] is fed them one by one, as they come.
#![tactic(auto)]

mod fault;
mod player;
mod step;

pub use fault::PlayFault;
pub use player::{StepPlayer, play};
