//! The name that someone may have meant who wrote another word.
//!
//!     nearest    the name at the least distance from a word
#![tactic(auto)]

pub mod nearest;
