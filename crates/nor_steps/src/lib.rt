//! The steps of the work, as text: a window of a chip at a time, unit after unit.
//!
//! A [`StepWriter`] takes what a window holds and what it must hold, plans its units and writes the
//! lines of their steps. A unit's steps go out as they are made: the clocks of one step at a time
//! are held, in memory that is used again.
#![tactic(auto)]

mod fault;
mod kept;
mod lines;
mod tally;
mod unit;
mod window;
mod work;
mod writer;

pub use fault::StepsFault;
pub use kept::StepList;
pub use lines::{InstrOut, Unwritten};
pub use tally::Tally;
pub use window::bounds;
pub use work::WorkWriter;
pub use writer::StepWriter;
