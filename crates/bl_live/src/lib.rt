//! What a server tells on standard error while it runs.
//!
//!     repeats   how often the same fault is told
//!     told      what is said of sessions that ended early
//!     live      what is told when it happens, and what is kept up
#![tactic(auto)]

pub mod live;
pub mod repeats;
pub mod told;
