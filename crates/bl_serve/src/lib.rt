//! Sessions over a gate: the machine behind a session whose lines others run too, and the session itself, over any
//! reader and writer.
//!
//!     session    serves a session
//!     talk       its conversation: what was asked is done, and what is told is written
//!     visit      the machine behind it: lines through the gate, turns while it waits
//!     told       the replies to the lines of a block
//!     laws       who speaks for a session, over all that happened behind a gate
#![tactic(auto)]

pub mod laws;
pub mod session;
pub mod talk;
pub mod told;
pub mod visit;
