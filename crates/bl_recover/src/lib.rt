//! The run of the command `recover`: the journal that a run left, closed, or why not.
//!
//!     recover    the run
//!     finish     a recovery that ended between the two names of its file
//!     told       what a recovery tells
#![tactic(auto)]

pub mod finish;
pub mod recover;
pub mod told;
