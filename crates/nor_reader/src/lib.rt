//! What the chip of a serprog device says and holds, each byte read twice: its identification
//! (JEDEC 9Fh), its SFDP tables (JESD216B 5Ah), and its content from an address on (W25Q256JV
//! datasheet 03h, 13h). Nothing is sent that changes what a chip holds.
//!
//! [`read_id`] reads the first, [`read_tables`] the second, [`read_content`] the third;
//! [`compare_part`] compares a part of that.
//! [`twice_knows`] is the law that bytes which came twice alike are those of every chip that would
//! have given these answers.
//!
//! [`idle_status`] waits until the chip is idle, [`chip_status`] reads its status registers,
//! [`read_register`] one of any kind, and [`suits`] says whether a job can begin on them.
//! [`tables_reach`] says how far SFDP tables reach, [`table_end`] where one of them ends, and
//! [`compare_tables`] compares the chip's with bytes that are known. [`address_register`] says
//! which register of the chip holds its upper address bits.
#![tactic(auto)]

mod at_once;
mod by;
mod difference;
mod id;
mod known;
mod laws;
mod own;
mod own_worked;
mod part;
mod pass;
mod past;
mod piece;
mod shows;
mod status;
mod switch;
mod tables;
mod told;
pub mod worked;

pub use at_once::for_reading;
pub use by::ReadBy;
pub use difference::{Difference, Mismatch, first_difference};
pub use id::read_id;
pub use known::{compare_tables, table_end, tables_reach};
pub use laws::{mode_is_shown, twice_knows};
pub use own::{AddressRegister, address_register, is_moved, opcode_of};
pub use own_worked::own_tables_worked;
pub use part::compare_part;
pub use pass::{read_again, read_content};
pub use past::read_past;
pub use shows::shows_mode;
pub use status::{chip_status, idle_status, read_register, suits};
pub use switch::{ENTER, LEAVE, switch_mode};
pub use tables::{TablesFault, read_tables};
pub use told::Pass;
