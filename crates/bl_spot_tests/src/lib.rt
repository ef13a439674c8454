//! Tests of what is told of a setup file's first fault.
//!
//!     told       what is told, as the tests write it
//!     faults     each kind of fault, with its place
//!     dues       what is due where a line does not go on
//!     names      the names that were meant
#![tactic(auto)]

#[cfg(test)]
mod dues;
#[cfg(test)]
mod faults;
#[cfg(test)]
mod names;
#[cfg(test)]
mod told;
