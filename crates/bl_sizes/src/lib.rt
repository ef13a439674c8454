//! How long the text of a trail may become: what is known of a line when it is admitted.
//!
//!     most    what may come of a line's work, in bytes
//!     laws    that the text stays within a limit that each line fitted when it was admitted
//!
//! The definitions stand in specs/: Sizes says what each place has in the text at most, and what may still come of it.
#![tactic(auto)]

pub mod laws;
pub mod most;
