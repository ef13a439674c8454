//! Tests of what the text of a trail leaves.
//!
//!     base      the base setup, and what trails over it leave
//!     trails    trails that leave something, and others
//!     memory    what comes of it where a growth is refused
#![tactic(auto)]

#[cfg(test)]
mod base;
#[cfg(test)]
mod memory;
#[cfg(test)]
mod trails;
