//! How a chip is driven, and where the blocks lie that an erase may take (JESD216B: the erase kinds
//! of FF00h DWORDs 8 and 9, the sector map FF81h, the four-byte address instructions FF84h).
//!
//! A block is legal where its start is a multiple of its size and all of it lies in one region of
//! the sector map, which allows its kind. That it may not cross a region's border is this project's
//! rule: JESD216B tells what each region allows, and says nothing of a block of two.
//!
//! A [`Strategy`](nor_base::Strategy) says by which opcodes and how many address bytes a chip is
//! driven; it takes a legal block only where it has an opcode for it.
#![tactic(auto)]

mod block;
mod blocks;
mod fault;
mod strategies;
mod unit;
mod widths;
mod windows;

pub use block::Block;
pub use blocks::{is_legal, legal, smallest};
pub use fault::PlanFault;
pub use strategies::strategy;
pub use unit::PlanUnit;
pub use widths::{FAR, legacy_width, takes_dedicated};
pub use windows::window_size;
