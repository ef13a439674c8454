//! Keeps a trail at the end of its run: in a new file, which has the whole trail before it takes the trail's name.
//!
//!     rest       what a writer still has when nothing more is to be written
//!     whole      trails that are written whole, and what is left of others
//!     named      gives a whole trail its name
//!     keep       keeps a trail in a file
//!     told       what is said of what is left of one
//!     ended      how a run ends that had one to keep
#![tactic(auto)]

pub mod ended;
pub mod keep;
pub mod named;
pub mod rest;
pub mod told;
pub mod whole;
