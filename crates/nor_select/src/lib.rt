//! Which instructions do an operation: its opcode, address bytes and dummy clocks by the strategy
//! (opcodes as in the W25Q256JV datasheet, "Instruction Set Table", and JESD216B's four-byte
//! address instructions).
//!
//! [`lower`] gives the instructions of all operations at once; a [`Lowerer`] takes them in parts.
//! An erase or a program is a write enable, the instruction and a poll. In strategy S4 four-byte
//! mode is entered before the first operation and left after the last.
#![tactic(auto)]

mod fault;
mod instr;
mod lowerer;
mod op;
mod select;

pub use fault::SelectFault;
pub use instr::{Body, Instr};
pub use lowerer::{Lowerer, lower, parts_join};
pub use op::Op;
