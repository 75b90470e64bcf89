//! The command line of norprog: its commands and their options with help, and which option's text
//! goes to which value.
#![tactic(auto)]

mod arguments;
mod commands;
mod options;
mod typed;

pub use options::{Asked, Line, asked_by};
pub use typed::TypedLine;
