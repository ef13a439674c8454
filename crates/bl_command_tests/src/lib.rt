//! The tests of `bl_command`.
//!
//!     runs       what the program says, and the status that it ends with
//!     system     the setup file and the port
//!     doors      what is said of doors
#![tactic(auto)]

#[cfg(test)]
mod doors;
#[cfg(test)]
mod runs;
#[cfg(test)]
mod system;
