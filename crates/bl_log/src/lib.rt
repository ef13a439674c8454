//! A log of connections: a line as one comes, is greeted and ends.
//!
//!     note     what a line says
//!     time     the time of a line
//!     log      writes notes as lines
//!     fault    why there is no log
//!     open     a log in a file
//!     told     what is said of a log on standard error
//!     laws     what a log has after many notes
#![tactic(auto)]

pub mod fault;
pub mod laws;
pub mod log;
pub mod note;
pub mod open;
pub mod time;
pub mod told;
