//! The listing of a bus script, which a person can read: the chip and the address mode that it is
//! read with, a line for each step, an end line with the number of steps, each closed by one LF. A
//! line tells its step exactly. `docs/FORMATS.md`, "Listing", has the format.
//!
//! [`write_listing`] writes the listing of steps that are at hand. [`begin`], then [`write_line`]
//! for each step as it comes, then [`finish`] with their number write the same. [`write_unended`]
//! leaves the end line out. None of them takes memory. [`list_steps`] writes that of a script, each
//! line as its step comes. [`one_listing`] is the law that a listing has one list of steps.
//!
//! [`read_listing`] reads a listing. That it refuses none is the law [`faultless_listings`], and
//! that it gives the steps back [`listing_read_back`].
#![tactic(auto)]

mod digits;
mod fault;
mod law;
mod line;
mod listable;
mod memory;
mod parts;
mod reader;
mod sent;
mod stream;
mod told;
mod verified;
mod writer;

pub use fault::ListFault;
pub use law::{faultless_listings, listing_read_back, one_listing};
pub use line::write_line;
pub use reader::read_listing;
pub use stream::{Stop, list_steps};
pub use writer::{begin, finish, write_listing, write_unended};
