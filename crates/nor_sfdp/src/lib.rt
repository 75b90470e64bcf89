//! Reads Serial Flash Discoverable Parameters (JEDEC JESD216B): what a SPI NOR flash chip says of
//! its size, page, erase kinds, sector map and instructions, or the first reason why that isn't
//! accepted.
#![tactic(auto)]

mod basic;
mod fault;
mod fields;
mod header;
mod kinds;
mod map;
mod opcodes;
mod reader;
mod tables;

pub use fault::SfdpFault;
pub use fields::{bits, is_set};
pub use opcodes::{are_distinct, own_opcodes};
pub use reader::{density, read};
pub use tables::{SfdpTable, table};
