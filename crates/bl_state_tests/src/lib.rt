//! Tests of a setup's text.
//!
//!     base      setups that are read, and what is written of them
//!     texts     the texts that are due
//!     puts      texts that are put into writers which take little, or fail
//!     largest   the longest text that there may be
//!     memory    what is written where a growth is refused
#![tactic(auto)]

#[cfg(test)]
mod base;
#[cfg(test)]
mod largest;
#[cfg(test)]
mod memory;
#[cfg(test)]
mod puts;
#[cfg(test)]
mod texts;
