//! The tests of `bl_disk`: a crash at each moment of each call, files that are full or fail, and files that are opened again.
//!
//!     memory     a file in memory
//!     torn       a file that takes each text byte by byte, has room for so many, and whose syncs may fail
//!     base       a file that is opened again
//!     crashes    a crash at each moment of each call
//!     faults     files that are full or fail
#![tactic(auto)]

#[cfg(test)]
mod base;
#[cfg(test)]
mod crashes;
#[cfg(test)]
mod faults;
pub mod memory;
pub mod torn;
