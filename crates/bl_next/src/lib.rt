//! What a run leaves: the setup that the next one begins with.
//!
//!     next      that setup, of a core in which all has ended
#![tactic(auto)]

pub mod next;
