//! The run of the command `explain` of an event: why what started at an event of a trail was granted or denied.
//!
//!     question  what is asked
//!     fault     why nothing is explained
//!     told      what is said of a fault, and the status
//!     noting    the rule that an event applied
//!     course    the first events of a trail, followed on a hall
//!     labels    the line that tells which start it is
//!     decision  what is told of a start
//!     event     the decision at an event
//!     explain   the run
//!
//! The definitions stand in specs/:
//!
//!     Decisions  the decision at an event, and what is told of it
//!     Courses    how far events were followed
//!     Starts     a start that has happened
//!     Origins    what stands above an entry
//!     Telling    what is said of a fault
//!     Explains   how a run ends
#![tactic(auto)]

mod course;
mod decision;
mod event;
pub mod explain;
pub mod fault;
mod labels;
mod noting;
pub mod question;
mod told;
