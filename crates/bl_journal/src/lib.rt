//! A trail that is written as it happens, and what is left of it after a crash: definitions and laws alone, no code.
//!
//!     laws    what a journal's file says, whatever a crash made of its end, and what a run is that goes on from it
//!
//! The definitions stand in specs/: Journals says what is recovered of a file, Lives what a journal is through many
//! crashes, Resumed what a run is that goes on.
#![tactic(auto)]

pub mod laws;
