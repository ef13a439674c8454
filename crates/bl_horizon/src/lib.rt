//! Of how many events of the trail the connections of a thread may tell.
//!
//!     horizon    how many the trail had at a turn at the gate, and where a thread notes that
#![tactic(auto)]

pub mod horizon;
