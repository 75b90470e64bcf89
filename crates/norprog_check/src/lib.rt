//! `norprog check`: whether a script, from anybody, does the job of a build's inputs on every chip
//! that they describe.
//!
//! [`check_script`] answers it from the bytes of inputs, script and content; [`check_stream`] of a
//! script that a device tells, which is never held; [`write_finding`] writes the lines of what they
//! return.
#![tactic(auto)]

mod checker;
mod content;
mod fault;
mod finding;
mod judge;
mod line;
mod readings;
mod stream;

pub use checker::check_script;
pub use fault::{CheckStop, StreamStop};
pub use finding::{Finding, ShowingChip};
pub use line::{write_finding, write_verdict};
pub use nor_base::{ByteIn, ByteOut, Failed, Wrong};
pub use nor_check::{Verdict, Why};
pub use nor_job::{BuildFault, Inputs};
pub use nor_script::ScriptFault;
pub use stream::check_stream;
