//! Tests of a script that is played, and of a chip that is flashed, by a device in memory: the test
//! of the line, each byte that goes out and comes, and what is printed.
//!
//! They stand apart, so that no crate is proved a second time with its tests.
#![tactic(auto)]

#[cfg(test)]
mod endings;
#[cfg(test)]
mod flashes;
#[cfg(test)]
mod line;
#[cfg(test)]
mod same;
#[cfg(test)]
mod scripts;
#[cfg(test)]
mod store;
