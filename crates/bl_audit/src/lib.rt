//! The trail of a hall, written as text.
//!
//!     bookmark how far the trail was written
//!     trail    writes the whole text, or the lines after a bookmark
//!     event    writes the line of an event, by what the hall's core knows at the end of the trail
//!     plain    that the texts of a line have no LF
//!     laws     that a bookmark stays right while more happens
#![tactic(auto)]

pub mod bookmark;
mod event;
pub mod laws;
mod plain;
pub mod trail;
