//! How long a plan takes: the chip's own busy time of its erases and programs, by the basic flash
//! parameter table (JEDEC JESD216B), and the clocks of its script on the bus. `docs/FORMATS.md`,
//! section 15, has the sums and the lines.
//!
//! [`read_times`] reads what the table tells. [`PlanTimes`] adds up over the lines of a plan, which
//! come piece after piece, and writes the two lines of times. They take no memory.
#![tactic(auto)]

mod bus;
mod busy;
mod clocks;
mod law;
mod times;
mod timing;
mod worked;
mod writer;

pub use busy::Busy;
pub use law::{busy_of_units, clocks_of_script, erases_are_named, text_of_plan};
pub use times::{Times, read_times};
pub use timing::PlanTimes;
pub use worked::{sums_worked, table_worked};
