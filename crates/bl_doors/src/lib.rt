//! Doors: a Unix socket for each subject, in a folder of its own. Who may enter that folder speaks for that subject.
//!
//!     greeted    a stream that gives a greeting first
//!     place      where the doors of a folder stand, and for whom
//!     fault      why no doors are opened
//!     door       a door
//!     incoming   who comes in by a door
//!     doors      the doors of a folder, opened and taken away
//!     laws       what is heard of who comes by a door
#![tactic(auto)]

pub mod door;
pub mod doors;
pub mod fault;
pub mod greeted;
pub mod incoming;
pub mod laws;
pub mod place;
