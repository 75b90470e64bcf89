//! Reads a log of SPI transactions, a line each, as other tools print them: `docs/FORMATS.md`,
//! "Logs", has the format.
//!
//! [`read`] gives the steps of its lines, or the number of the first line that is none.
#![tactic(auto)]

mod bytes;
mod fault;
mod line;
mod reader;
mod text;

pub use fault::LogFault;
pub use reader::{Log, read};
