//! The commands that write no file: `replay`, `state`, `check`, `explain` and `audit`.
//!
//!     files    the files that `replay` and `state` read
//!     run      runs over the ends that they are given, once files were read
//!     chain    the audit of a chain in a folder of the system
//!
//! The definition stands in specs/:
//!
//!     Runs    how a replay ends
#![tactic(auto)]

pub mod chain;
pub mod files;
pub mod run;
