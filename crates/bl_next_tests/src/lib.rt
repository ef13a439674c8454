//! Tests of the setup that a run leaves.
//!
//!     base      cores, and the lines that they run
//!     stands    what stands after some lines, and in a run that goes on from there
//!     memory    what comes of it where a growth is refused
#![tactic(auto)]

#[cfg(test)]
mod base;
#[cfg(test)]
mod memory;
#[cfg(test)]
mod stands;
