//! The lines of a plan, unit by unit: each block that is erased, why, and each program.
//! `docs/FORMATS.md` has the format.
//!
//! [`window_lines`] takes what a window of a chip holds and what it must hold, plans its units and
//! returns their lines; it holds the plan of the window and the runs of one unit. A [`PlanWriter`]
//! writes them window after window, and counts the steps of the work. [`write_lines`] writes the
//! text of lines, [`write_line`] that of one.
#![tactic(auto)]

mod line;
mod opcode;
mod plan;
mod reasons;
mod unit;
mod window;
mod writer;

pub use line::PlanLine;
pub use plan::PlanWriter;
pub use window::window_lines;
pub use writer::{write_line, write_lines};
