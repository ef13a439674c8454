//! The folder of a chain of runs: the names of its files, and what is done with them.
//!
//!     name      the files of runs, and their names
//!     span      of which runs a file stands there
//!     fault     why a call of a folder failed
//!     folder    a folder: what its calls do
//!     system    a folder of the system
//!     lock      a folder that one program at a time works in
//!
//! The definitions stand in specs/:
//!
//!     Names     the names of files
//!     Standing  what stands in a folder, and what a call makes of it
#![tactic(auto)]

pub mod fault;
pub mod folder;
mod lock;
pub mod name;
pub mod span;
pub mod system;
