//! The tests of `bl_readonly`.
//!
//!     runs     what is said, and the status that a run ends with
//!     files    the files that are read
#![tactic(auto)]

#[cfg(test)]
mod files;
#[cfg(test)]
mod runs;
