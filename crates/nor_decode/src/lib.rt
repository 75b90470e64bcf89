//! Which instruction the clocks of a transaction are, on a chip with given parameters and in an
//! address mode.
//!
//! [`decode`] looks at the clocks only by their lanes, as a chip does (W25Q256JV datasheet, SPI
//! mode 0), at each of them at most twice, and copies none. [`Seen`] borrows the data clocks, and
//! gives their bytes one by one.
#![tactic(auto)]

mod clocks;
mod seen;
mod table;
mod transaction;

pub use clocks::{POLL, is_verify};
pub use nor_base::What;
pub use seen::Seen;
pub use transaction::decode;
