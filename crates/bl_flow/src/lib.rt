//! What flows in a history: subjects that a level dominates are told nothing of what it does not dominate.
//!
//!     laws    what low subjects are told, whoever else speaks
//!
//! The definitions stand in specs/:
//!
//!     Low       histories, and what is low in them
//!     Purge     a history without its high places
//!     Sealed    which histories let nothing down to a level
//!     Flow      what the laws say
#![tactic(auto)]

pub mod laws;
