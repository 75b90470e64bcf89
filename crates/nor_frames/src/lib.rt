//! The clocks of an instruction (W25Q256JV datasheet: opcode and address on IO0, highest byte and
//! most significant bit first; dummy clocks; then the data, on one lane or on four).
//!
//! [`clocks_into`] appends them to a vector. It asks for its memory at once, and the bytes go in 32
//! symbols at a time.
#![tactic(auto)]

mod fault;
mod frame;
mod spread;

pub use fault::FramesFault;
pub use frame::{clocks_into, head};
pub use spread::{spread1, spread1_lanes, spread4, spread4_lanes};
