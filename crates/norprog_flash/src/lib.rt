//! `norprog flash`: has a programmer read a chip, plan for what it holds, and do that work
//! (docs/FORMATS.md, section 14).
//!
//! [`look_at`] refuses a job for a fault that shows before its chip is read. [`hold`] tests the
//! line and reads the chip; what that held is to be saved then. [`go_on`] plans, prints the plan,
//! and does the work. [`report_ending`] tells how it ended.
//!
//! The planned work goes from what the chip holds to what it must hold. What the image doesn't give
//! is what an older dump of the chip has; where work isn't resumed that is what it holds. [`look`]
//! refuses a job before its chip is read, [`goal_of`] has the target, [`work_for`] plans, and
//! [`compare`] looks whether a chip holds what it must. The steps are made twice, a window at a
//! time: to see that the device can do each, and to have it do them.
#![tactic(auto)]

mod begun;
mod blame;
mod blank;
mod compared;
mod device;
mod dump;
mod early;
mod ending;
mod goal;
mod job;
mod line;
mod looked;
mod narrowed;
mod near;
mod options;
mod planned;
mod report;
mod request;
mod resumed;
mod span;
mod survey;
mod way;
mod windows;
mod work;

pub use begun::{Held, hold};
pub use blame::fault_in;
pub use compared::{Comparison, compare};
pub use device::go_on;
pub use dump::{Dump, dump_in};
pub use early::look_at;
pub use ending::{Ending, Unflashed};
pub use goal::{Goal, goal_of};
pub use job::Job;
pub use line::{write_closed, write_ending};
pub use looked::look;
pub use norprog_common::FlashArgs;
pub use planned::{Work, work_for};
pub use report::{family_of, report_ending};
pub use request::{FlashRequest, request_of};
