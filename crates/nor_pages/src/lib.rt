//! What is programmed of each unit of the work: which bytes of each page, as runs.
//!
//! In a page of an erased block a run goes from the first byte whose target isn't FFh to the last;
//! in a page outside, from the first byte that differs to the last. Where only erased bytes may be
//! programmed, a page outside is cut at each byte that isn't FFh, and each part has its own run.
//! [`split`] looks at no byte twice, and takes no memory but its answer.
#![tactic(auto)]

mod fault;
mod run;
mod splitter;

pub use fault::PagesFault;
pub use run::Run;
pub use splitter::split;
