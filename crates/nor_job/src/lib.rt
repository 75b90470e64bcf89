//! What a build is asked for, in which order its inputs are refused, and what has to be done once
//! they are accepted.
//!
//! [`job_of`] looks at all of them; [`contradiction`] and [`chip_of`] look at the parts that need
//! neither image nor layout.
#![tactic(auto)]

mod chip;
mod content;
mod fault;
mod inputs;
mod job;
mod shares;
mod status;

pub use chip::chip_of;
pub use content::fill_window;
pub use fault::BuildFault;
pub use inputs::{Inputs, Source, contradiction};
pub use job::{Job, image_of, job_of};
pub use shares::{chosen_regions, empty_region};
