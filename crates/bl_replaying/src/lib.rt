//! The run of the command `replay` over the ends that it is given, with what it says and the status that it ends with.
//!
//!     replay     the verdict on a trail
//!     open       the same of a trail that may be open
#![tactic(auto)]

pub mod open;
pub mod replay;
