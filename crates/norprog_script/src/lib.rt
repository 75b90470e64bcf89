//! `norprog script`: the script of a log of transactions, or of a listing (docs/FORMATS.md,
//! sections 9, 12 and 18).
//!
//! [`script_log`] and [`script_listing`] do the work, from the bytes of a log or a listing to those
//! of its script.
//!
//! `norprog draw`: draws a script as a waveform (sections 9 and 13). [`steps_of`] and
//! [`draw_steps`] go from the bytes of a script to those of its waveform.
#![tactic(auto)]

mod draw_request;
mod listing;
mod log;
mod request;
mod script;
mod tally;
mod text;

pub use draw_request::{DrawRequest, drawing_of};
pub use listing::script_listing;
pub use log::script_log;
pub use norprog_common::{DrawArgs, ScriptArgs};
pub use request::{ScriptRequest, request_of};
pub use script::{draw_steps, steps_of};
pub use tally::{Tally, write_tally};
pub use text::write_script;
