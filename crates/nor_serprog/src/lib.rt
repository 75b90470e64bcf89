//! The host's side of a serprog device, a programmer with a chip behind it (flashrom's Serial
//! Flasher Protocol Specification, version 1), over any reader and writer.
//!
//! [`greet`] begins, [`test_line`] shows that each byte reaches the device as it was sent,
//! [`operate`] does one SPI operation, [`operate_with`] one whose answer is known, [`is_carried`]
//! reports which clocks are one. [`do_step`] does a step of a script, [`do_row`] steps whose
//! requests go out in one write ([`row_length`]; [`rows`] is a law of them); [`carried`] finds a
//! step that can't be done. [`release`] ends.
#![tactic(auto)]

mod clocks;
mod done;
mod exchange;
mod fault;
mod follow;
mod halt;
mod handshake;
mod laws;
mod limits;
mod line;
mod operation;
mod pins;
mod put;
mod row;
mod word;

pub use clocks::is_carried;
pub use done::{carried, do_step, is_doable};
pub use fault::{Command, Fault, GreetFault, Reason};
pub use halt::Halt;
pub use handshake::greet;
pub use laws::rows;
pub use limits::Limits;
pub use line::test_line;
pub use operation::{operate, operate_with};
pub use pins::release;
pub use row::{do_row, row_length};
