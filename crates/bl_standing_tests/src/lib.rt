//! Tests of the command `state` over the ends that it is given.
//!
//!     base      runs, and what is asserted of how they end
//!     runs      what is written and said of setups and trails
//!     sizes     the longest setup file that is written, and one byte more
//!     memory    what comes of a run where a growth is refused
#![tactic(auto)]

#[cfg(test)]
mod base;
#[cfg(test)]
mod memory;
#[cfg(test)]
mod runs;
#[cfg(test)]
mod sizes;
