//! `norprog read`: what the chip of a serprog device says and holds, each byte read twice
//! (docs/FORMATS.md, section 14).
//!
//! [`read_opened`] does the work from the handshake on, over any reader and writer; [`read_chip`]
//! after it. [`write_reading`] and [`write_unlike`] print how it ended. [`fault_of_unlike`] says
//! how the exchange ended early that is why a chip isn't read. [`shown_line_keeps`] is the law that
//! a terminal changed nothing of what was read where what came shows it.
#![tactic(auto)]

mod asked;
mod blame;
mod came;
mod chip;
mod content;
mod end;
mod fault;
mod laws;
mod line;
mod mode;
mod opened;
mod request;
mod size;
mod span;

pub use asked::{Ask, Known, Reading, Span};
pub use blame::fault_of_unlike;
pub use chip::{check_file, read_chip};
pub use content::first_by;
pub use fault::{Unlike, Unread};
pub use laws::shown_line_keeps;
pub use line::{write_note, write_reading, write_unlike};
pub use norprog_common::ReadArgs;
pub use norprog_device::DeviceFault;
pub use opened::read_opened;
pub use request::{ReadRequest, ask_of, request_of};
pub use span::wide_window;
