//! Sessions with one worker: the lines that a client sends are read, answered, and replied to, all in one thread.
//!
//!     alone      a session with one worker
//!     keep       who keeps its trail before any of it is told
//!     laws       what holds of a session with one worker
//!     talk       its conversation: what is heard, asked of the hall and told
//!     entries    the hall of one worker: lines are admitted, run, and answered
//!     block      the replies of a block, line by line
#![tactic(auto)]

pub mod alone;
mod block;
mod entries;
pub mod keep;
pub mod laws;
mod talk;

pub use bl_wire::{fault, watched};
