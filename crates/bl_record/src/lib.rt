//! A journal: the text of a hall's trail, in a file that grows while the hall does, and what is made of the file after
//! a crash.
//!
//!     fault      why a journal goes no further, and why a file is not gone on with
//!     journal    keeps up with a hall, and is closed
//!     ending     ends all that was admitted to a hall
//!     rest       what a text has after its right part
//!     complete   the hall of a file's text, in which all has ended
//!     recover    goes on from a file that a crash has cut off, or closes it
#![tactic(auto)]

mod complete;
pub mod ending;
pub mod fault;
pub mod journal;
pub mod recover;
mod rest;
