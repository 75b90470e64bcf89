//! What every crate of norprog speaks of: symbols and the lane samples that they mean, steps of a
//! bus script, what a chip's SFDP parameters say of it, devices that give and take bytes, and, in
//! `specs/`, the definitions that the whole project is proved against.
#![tactic(auto)]

pub mod bytes;
pub mod clock;
pub mod device;
pub mod from_read;
pub mod instruction;
pub mod into_write;
pub mod meaning;
pub mod nowhere;
pub mod step;
pub mod transfer;
pub mod wrong;

pub use bytes::Bytes;
pub use clock::{Clock, Sample, clock_of, sample_of, sampled, symbol_of};
pub use device::{ByteIn, ByteOut, Failed};
pub use from_read::FromRead;
pub use instruction::What;
pub use into_write::IntoWrite;
pub use meaning::{Erase, Meaning, Part, QuadRead, Region, Start, Strategy, Switch, Width};
pub use nowhere::Nowhere;
pub use step::{Step, is_step};
pub use transfer::{fill_from, put_all, put_parts};
pub use wrong::{PortFault, Wrong};
