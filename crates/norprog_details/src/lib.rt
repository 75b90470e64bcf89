//! What `--details` writes after the line of a refusal: the option that it is about and the form of
//! its value, the file's line, what the file seems to be, and the paragraph of `explain`
//! (docs/FORMATS.md, section 9).
//!
//! [`write_details`] writes it. [`Heard`] is a writer that keeps the last line that went through
//! it, which [`write_details`] takes. [`explain`] writes what a text means that norprog prints, and
//! what to do: a paragraph for each refusal, verdict and line.
#![tactic(auto)]

mod details;
mod form;
mod heard;
mod matching;
mod passage;
mod seems;
mod subject;
mod teller;
mod text;
mod topics;
mod typed;
mod usage;

pub use details::write_details;
pub use heard::Heard;
pub use teller::{explain, write_topic};
pub use typed::{CommandLine, Typed};
