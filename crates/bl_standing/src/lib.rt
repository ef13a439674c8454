//! The run of the command `state`: the setup that stands at the end of a trail, as the text of a setup file.
//!
//!     fault     why no setup is written
//!     told      what is said of that, and the status
//!     left      the setup that stands at the end of a trail, for a setup file
//!     state     the run
//!
//! The definitions stand in specs/:
//!
//!     Standing  what stands at the end of a trail, or why nothing does that another run may begin with
//!     Telling   what is said of a fault
//!     States    how a run ends
#![tactic(auto)]

pub mod fault;
mod left;
pub mod state;
mod told;
