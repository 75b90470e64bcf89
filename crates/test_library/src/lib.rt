//! Tests, over public calls, of all below the program's commands that no row of data can say:
//! devices that fail, refused growths of memory, and kernels beside plain loops. `test_chip_rows`
//! and `test_plan_rows` have the rest, `test_bench` whole jobs of the commands that ask a device.
//!
//! They stand apart, so that no crate is proved a second time with its tests.
#![tactic(auto)]

#[cfg(test)]
mod bytes;
#[cfg(test)]
mod cells;
#[cfg(test)]
mod check;
#[cfg(test)]
mod devices;
#[cfg(test)]
mod greets;
#[cfg(test)]
mod lanes;
#[cfg(test)]
mod layout;
#[cfg(test)]
mod operations;
#[cfg(test)]
mod planners;
#[cfg(test)]
mod play;
#[cfg(test)]
#[cfg(test)]
mod ports;
#[cfg(test)]
mod readers;
#[cfg(test)]
mod same;
#[cfg(test)]
mod script;
#[cfg(test)]
mod steps;
#[cfg(test)]
mod steps_done;
#[cfg(test)]
mod symbols;
