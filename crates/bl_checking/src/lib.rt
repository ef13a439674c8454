//! The run of the command `check`: where a setup file is at fault first, and why, or what it permits.
//!
//!     check      the run
//!     told       what is told of a fault
//!     words      what was due, and why a word is at fault, in words
//!     visible    what is visible of a line
//!
//! The definitions stand in specs/:
//!
//!     Visible    what is visible of a line
//!     Telling    what is told of a fault
//!     Checks     how a run ends
#![tactic(auto)]

pub mod check;
mod told;
mod visible;
mod words;
