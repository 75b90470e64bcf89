//! Reads a sheet: what a chip is, in the lines that `norprog sfdp` prints, as a person writes them
//! from the chip's data sheet.
//!
//! [`read`] gives the meaning, or the first fault.
#![tactic(auto)]

mod fault;
mod laws;
mod line;
mod meaning;
mod number;
mod reader;
mod said;
mod sheet;
mod words;

pub use fault::{Lack, LineFault, SheetFault};
pub use laws::sheets_apart;
pub use reader::read;
pub use said::{Dedicated, Page, Said};
