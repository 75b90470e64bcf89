//! The text of a bus script: a header line, a line for each step, an end line with the number of
//! steps, each closed by one LF. `docs/FORMATS.md`, "Script text", has the format.
//!
//! [`begin`], then [`write_step`] for each step, then [`finish`] with their number write a script.
//! None of them takes memory. [`write_send`], [`write_poll`] and [`write_verify`] write a step's
//! line from borrowed clocks. [`read`] reads one back, or tells its first fault;
//! [`read_until_fault`] keeps the steps above that. [`StepReader`] reads one out of a device, step
//! by step, in a buffer that it uses again; [`count_steps`] only says whether it is one.
#![tactic(auto)]

mod fault;
mod hexadecimal;
mod laws;
mod line;
mod lines;
mod owned;
mod reader;
mod steps;
mod text;
mod view;
mod writer;

pub use fault::{ReadFault, ScriptFault};
pub use hexadecimal::{hex_number, hex_pair, put_hexadecimal};
pub use laws::faultless_scripts;
pub use reader::{first_line, read, read_until_fault};
pub use steps::{StepReader, count_steps};
pub use text::TextIn;
pub use view::StepView;
pub use writer::{begin, finish, write_poll, write_send, write_step, write_verify};
