//! Reads a layout, the text by which flashrom names regions of a flash chip, and chooses the
//! addresses of some of its regions.
//!
//! A line is `start:end name`, as flashrom's manual page has it: both numbers are hexadecimal
//! offsets in the chip, and both ends belong to the region.
#![tactic(auto)]

mod cause;
mod chosen;
mod fault;
mod fields;
mod layout;
mod line;
mod number;
mod reader;
mod region;

pub use chosen::Chosen;
pub use fault::LayoutFault;
pub use layout::Layout;
pub use reader::read;
pub use region::Region;
