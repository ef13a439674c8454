//! The tests of `bl_alone`: what a run tells and leaves in its file, which is full or fails at each
//! place.
//!
//!     titled    a device that is the file of a name
//!     base      a run over the base setup, and its trail
//!     whole     a trail that is whole
//!     failing   files that are full, and syncs that fail
//!     resumed   sessions that go on from a run that was cut off
#![tactic(auto)]

#[cfg(test)]
mod base;
#[cfg(test)]
mod failing;
#[cfg(test)]
mod resumed;
#[cfg(test)]
mod titled;
#[cfg(test)]
mod whole;
