//! Where a setup file is at fault: the bytes of its line that are, and why they are.
//!
//!     located    what is told of a fault
//!     locate     from a file and its fault to what is told
//!     line       a line of a file
//!     cut        the lines before one, and those from it on
//!     before     what the lines before a fault declared
//!     asked      the first name of a declaration that is at fault
//!     excess     what a declaration has too many of
//!     extent     from the tokens of a line to its bytes
//!     laws       what is asked of each token
#![tactic(auto)]

mod asked;
mod before;
mod cut;
mod excess;
mod extent;
pub mod laws;
pub mod line;
pub mod locate;
pub mod located;
