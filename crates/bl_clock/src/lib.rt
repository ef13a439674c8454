//! The times at which a journal was written, in a file beside it.
//!
//!     timed    a device that has it noted when it has kept more
//!     clock    the file of these times
#![tactic(auto)]

pub mod clock;
pub mod timed;
