//! The gate: a hall that many threads call, one at a time, in the order of their tickets. All calls stand in one legal
//! trail. A pass knows what it has seen of it and which positions are its own, and who has met all passes knows the
//! whole.
//!
//!     boxed   a hall in memory of its own, as it is handed on
//!     gate    the gate, and the calls of the hall through it
//!     pass    what a thread calls a gate with
//!     rule    what the gate's table keeps between any two steps
//!     turn    several calls of the hall while nobody else makes one
#![tactic(auto)]

pub mod boxed;
pub mod gate;
pub mod pass;
pub mod rule;
pub mod turn;
