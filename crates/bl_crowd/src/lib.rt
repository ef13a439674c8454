//! The connections of one thread, which share one pass.
//!
//!     member    a connection with its session, and what is asked of the machine at its last line
//!     crowd     many of them over one gate
//!     tally     how the lines of a session were taken
#![tactic(auto)]

pub mod crowd;
pub mod member;
pub mod tally;
