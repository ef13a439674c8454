//! The run of the command `serve`: sessions of who comes in at an entrance, whose trail is written at the end, or kept as
//! it goes, in a journal over a device.
//!
//!     serve     the run, however its trail is kept
//!     at_end    the run whose trail is written at its end
//!     recorded  the run with a journal
//!     chained   a run of a chain, which another one follows
//!     told      what is told of the sessions once they have ended
//!     noted     what a run notes of itself in its log
//!     fault     what ends a run with a journal beside what ends any run
//!     close     closes the journal after the sessions
#![tactic(auto)]

mod at_end;
pub mod chained;
mod close;
pub mod fault;
pub mod noted;
mod recorded;
pub mod serve;
mod told;
