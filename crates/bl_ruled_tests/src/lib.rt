//! Tests of the rules that a trail's run applied.
//!
//!     trails    trails with rules, and others
//!     memory    what comes of it where a growth is refused
#![tactic(auto)]

#[cfg(test)]
mod memory;
#[cfg(test)]
mod trails;
