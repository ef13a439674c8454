//! The tests of `bl_replay`: texts of trails that are true, and texts with a line that is not right.
//!
//!     base       the setup of the worked examples, and verdicts over it
//!     trails     the worked examples of replays
//!     presence   trails of documents that come and go, by either version
//!     memory     what is answered where a growth is refused
#![tactic(auto)]

#[cfg(test)]
mod base;
#[cfg(test)]
mod memory;
#[cfg(test)]
mod presence;
#[cfg(test)]
mod trails;
