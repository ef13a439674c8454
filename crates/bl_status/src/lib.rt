//! What ends a run of the program: its words on standard error, and its status.
//!
//!     fault      what ends a run, with its words and its status
//!     named      a fault, and what it is about
//!     setup      the setup that the program is given, or why it is none
//!     told       what a run says of it on standard error
//!     place      the line behind a fault that says what it is about
#![tactic(auto)]

pub mod fault;
pub mod named;
pub mod place;
pub mod setup;
pub mod told;
