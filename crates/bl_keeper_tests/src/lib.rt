//! The tests of `bl_keeper`: threads that add events and have them kept, files that fail, and what is written before
//! anything is kept.
//!
//!     base       a gate, its keeper, and what the tests ask of both
//!     crowded    a file whose syncs take until all threads have asked for one
//!     overlap    threads that ask while others are served
//!     threads    threads that add events and have them kept
//!     faults     files that are full or fail
//!     desks      connections that wait at a desk
//!     order      nothing is written before it was kept
#![tactic(auto)]

#[cfg(test)]
mod base;
#[cfg(test)]
mod crowded;
#[cfg(test)]
mod desks;
#[cfg(test)]
mod faults;
#[cfg(test)]
mod order;
#[cfg(test)]
mod overlap;
#[cfg(test)]
mod threads;
