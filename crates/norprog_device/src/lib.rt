//! What the commands have in common that ask a serprog device (docs/FORMATS.md, section 14).
//!
//! [`DeviceFault`] says why a device can't be used, [`refuse_device`] writes that, and [`word`] is
//! the word of an exchange that ended early. [`fault_of_greeting`] and [`fault_of_mismatch`] say
//! how the exchange ended that ended the work, and [`is_cut`] whether nothing more may be sent.
//! [`let_go`] lets the pins of the device's chip go. [`write_stty`] writes how the terminal of a
//! device is set, [`write_waiting`] which one is waited for, and [`write_word`] a text as a shell
//! reads it; [`write_status`], [`write_digits`] and [`write_difference`] what lines show of a chip.
//!
//! [`do_window`] has a device do some steps of a script. [`Failure`] says why a device didn't do a
//! step: [`failure_at`] from where it halted, [`failure_by`] of a read after all steps;
//! [`fault_of_failure`] how the exchange ended that ended it, and [`is_sent`] whether steps were
//! sent before. [`write_failure`] writes its line, [`write_wrong`] that of a number of what goes
//! wrong.
#![tactic(auto)]

mod blame;
mod doing;
mod failure;
mod failure_line;
mod fault;
mod line;
mod pins;
mod reported;
mod setting;
mod shell;
mod shown;

pub use blame::{fault_of_greeting, fault_of_mismatch, is_cut};
pub use doing::{Doing, Stop, do_window};
pub use failure::{Failure, fault_of_failure, is_sent};
pub use failure_line::{write_failure, write_wrong};
pub use fault::DeviceFault;
pub use line::{refuse_device, word, write_device};
pub use pins::let_go;
pub use reported::{failure_at, failure_by};
pub use setting::{write_stty, write_waiting};
pub use shell::write_word;
pub use shown::{registers, write_difference, write_digits, write_status};
