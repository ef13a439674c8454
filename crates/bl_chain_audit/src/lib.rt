//! Whether the closed runs of a chain are true, each over what the one before left. Nothing is written here.
//!
//!     noted     the run with which an audit begins, by what was noted of it
//!     journal   the journal of the run behind them, up to where it is right
//!     audit     whether the closed runs are true, and that journal is right so far
//!     laws      that a run begins with what the run before left, and an audit where an earlier one ended
//!
//! The definitions stand in specs/:
//!
//!     Noted     the run with which an audit begins
//!     Closed    runs that are closed
//!     Journal   the journal of the run behind them
//!     Untrue    why they are not true
#![tactic(auto)]

pub mod audit;
pub mod journal;
pub mod laws;
pub mod noted;
