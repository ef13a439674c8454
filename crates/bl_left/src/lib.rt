//! What a trail's run left, by its text alone: no core is driven, as in a replay.
//!
//!     left      the verdict on a trail's text, and the setup that stands at its end
//!     follow    follows the lines of a trail to its end
//!     told      what stands there, once the monitor is told of all places
//!
//! The definitions stand in specs/:
//!
//!     Left      what a text leaves
//!     Ended     how a replay ends
#![tactic(auto)]

mod follow;
pub mod left;
mod told;
