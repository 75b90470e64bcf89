//! The waveform of a bus script: a Value Change Dump (IEEE 1364) of seven wires that PulseView,
//! GTKWave and sigrok open. `docs/FORMATS.md`, "Waveform", has the format.
//!
//! [`write_waves`] writes it, and takes no memory. [`worked`] has values of it, worked out by hand.
#![tactic(auto)]

mod drawing;
mod lanes;
mod wires;
pub mod worked;
mod writer;

pub use writer::write_waves;
