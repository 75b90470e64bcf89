//! Whether a script does its task on every chip that a meaning and a start describe.
//!
//! [`check`] runs no chip, nor does [`StepChecker`], which is fed with one step after another. They
//! keep what all chips of one page have in common after some steps: one array and mode, whether any
//! number of status reads may be left or none, and whether the write enable latch is clear, set, or
//! either. Which step goes wrong on some chip, and how, is then what the chip that takes the fewest
//! instructions says.
#![tactic(auto)]

mod checker;
mod chips;
mod laws;
mod pages;
mod verdict;
mod view;

pub use checker::{StepChecker, check, check_shown};
pub use laws::{each_no_is_shown, one_verdict};
pub use nor_base::Wrong;
pub use verdict::{CheckFault, Verdict, Why, Witness};
