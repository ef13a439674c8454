//! Tests of the command `explain` over the ends that it is given.
//!
//!     base      runs, and what is asserted of how they end
//!     accesses  what is told of accesses
//!     rules     what is told of rules
//!     faults    what is said where nothing is explained
//!     memory    what comes of a run where a growth is refused
#![tactic(auto)]

#[cfg(test)]
mod accesses;
#[cfg(test)]
mod base;
#[cfg(test)]
mod faults;
#[cfg(test)]
mod memory;
#[cfg(test)]
mod rules;
