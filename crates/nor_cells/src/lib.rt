//! The cells of 256 bytes of a chip that are compared with a content, before steps and after them:
//! so that a chip that isn't the one of the content shows.
//!
//! [`TouchedCells`] marks those to compare before the steps, [`mark_wraps`] adds those that only
//! the content after them shows, and [`next_piece`] goes through the marked addresses.
#![tactic(auto)]

mod beside;
mod edges;
mod laws;
mod marked;
mod touched;
mod wrap;

pub use edges::first_held;
pub use laws::{smaller_chip_shows, wider_erase_shows};
pub use marked::next_piece;
pub use touched::{CELL, TouchedCells};
pub use wrap::mark_wraps;
