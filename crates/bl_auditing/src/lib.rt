//! The run of the command `audit`: whether the closed runs of a chain are true, told.
//!
//!     audit     the run
//!
//! The definitions stand in specs/:
//!
//!     Audits    what is told of a chain that is true, and of one that is not
#![tactic(auto)]

pub mod audit;
