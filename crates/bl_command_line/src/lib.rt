//! The command line that the program takes: its commands, their options and words.
//!
//!     bounds     the least and the most of each number
//!     options    the options, and the words that stand without one
//!     parsers    the parsers of the commands
//!
//! The definition stands in specs/:
//!
//!     CommandLine    the options of each command
#![tactic(auto)]

pub mod bounds;
mod options;
pub mod parsers;
