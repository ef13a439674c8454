//! Tests of the command `explain` over a trail, over the ends that it is given.
//!
//!     base      runs, and what is asserted of how they end
//!     moments   what is told where a trail leads
//!     faults    what is said where nothing is explained
//!     memory    what comes of a run where a growth is refused
#![tactic(auto)]

#[cfg(test)]
mod base;
#[cfg(test)]
mod faults;
#[cfg(test)]
mod memory;
#[cfg(test)]
mod moments;
