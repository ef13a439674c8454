//! What may stand next in a line of a setup file, and the first token of a line that may not.
//!
//!     due       what is due: declarations of a section, words and kinds of tokens
//!     item      the items that a declaration is made of behind its first word
//!     left      the items that are left of one, and what a token leaves of them
//!     point     how far a line was read
//!     misfit    the first token of a line that does not fit
#![tactic(auto)]

pub mod due;
mod item;
mod left;
pub mod misfit;
mod point;
