//! From the bytes of a line to what it asks, by the names of the server, or its first fault.
//!
//!     line     reads a line
//!     lookup   the documents of a `when`, looked up once
//!     build    the script that a `when` stands for
//!     rules    the rule that a line stands for
#![tactic(auto)]

mod build;
pub mod line;
mod lookup;
mod rules;
