//! The tests of `bl_words`, and of what it stands on.
//!
//!     words    the words of a command line
#![tactic(auto)]

#[cfg(test)]
mod words;
