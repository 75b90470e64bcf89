//! Tests of the commands' libraries that no row of `tests/` can say: devices that move few bytes at
//! a call, end early or fail, refused growths, and lines of numbers that no job here reaches.
#![tactic(auto)]

#[cfg(test)]
mod builds;
#[cfg(test)]
mod checks;
#[cfg(test)]
mod details;
#[cfg(test)]
mod devices;
#[cfg(test)]
mod hexes;
#[cfg(test)]
mod lines;
#[cfg(test)]
mod plans;
#[cfg(test)]
mod plays;
#[cfg(test)]
mod refusals;
#[cfg(test)]
mod same;
#[cfg(test)]
mod windows;
