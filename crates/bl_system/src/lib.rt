//! What commands take from the system: files, a port to listen at, doors, a log.
//!
//!     files     the files that a command reads, and how much of each
//!     listen    a listener at a port
//!     doors     what is said of doors on standard error
//!     enter     what a run of `serve` takes from the system before its sessions
#![tactic(auto)]

pub mod doors;
pub mod enter;
pub mod files;
pub mod listen;
