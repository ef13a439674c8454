//! The run of the command `explain` over a trail: why what a subject asks for is granted or denied where the trail leads,
//! all of it or its first events.
//!
//!     question  what is asked
//!     fault     why nothing is explained
//!     told      what is said of a fault, and the status
//!     moment    where the trail leads, and what is told there
//!     explain   the run
//!
//! The definitions stand in specs/:
//!
//!     Moments   where a trail leads
//!     Telling   what is said of a fault
//!     Explains  how a run ends
#![tactic(auto)]

pub mod explain;
pub mod fault;
mod moment;
pub mod question;
pub mod told;
