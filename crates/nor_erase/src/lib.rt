//! What is erased and which pages are written, for a chip's content and target: the units of the
//! work, a window of the chip at a time.
//!
//! A byte is due where it has to change and no program may do it. The needed area is the smallest
//! legal blocks of the bytes that are due; the erased blocks are the largest blocks of the strategy
//! inside it; a page outside them that differs is a unit of its own. [`plan`] gathers runs of
//! smallest blocks, rising, and tiles each run from its low end by the largest block that fits: no
//! block inside the needed area lies over the low end of what is left, so that block is the erased
//! one there.
#![tactic(auto)]

mod bytes;
mod lanes;
mod planner;
mod tiles;

pub use bytes::{dirty, first_due, rises};
pub use lanes::rises_lanes;
pub use nor_geometry::{PlanFault, PlanUnit};
pub use planner::plan;
