//! A script on a device that speaks serprog, judged in memory before (docs/FORMATS.md, sections 9
//! and 14).
//!
//! [`job_of`] reads what is to be played from the bytes of the inputs. [`ends_early`] checks that
//! every chip does the same, and tells how it ends whatever the device is, or what a device is to
//! do. [`play_on`] has one do that, from its handshake on, over any
//! reader and writer, and [`play_on_device`] the part of it after the test of the line: no step
//! goes out before each is one operation of the device and, unless the chip behind it is trusted,
//! what they touch of that chip was read and is what it is to hold. [`report_ending`] tells how it
//! ended.
#![tactic(auto)]

mod access;
mod asked;
mod blame;
mod content;
mod course;
mod device;
mod early;
mod ending;
mod expected;
mod job;
mod line;
mod piece;
mod played;
mod put;
mod rehearsal;
mod request;
mod script;
mod state;
mod unplayed;
mod windows;

pub use course::Course;
pub use device::play_on_device;
pub use early::{Early, Rehearsed, ends_early};
pub use ending::{Ending, Unlike};
pub use expected::{Expected, known_tables};
pub use job::{Job, job_of};
pub use line::write_ending;
pub use norprog_device::{DeviceFault, Failure};
pub use played::play_on;
pub use rehearsal::{Rehearsal, rehearse};
pub use request::{PlayRequest, request_of};
pub use state::report_ending;
pub use unplayed::Unplayed;
