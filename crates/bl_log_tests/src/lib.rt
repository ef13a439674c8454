//! The tests of `bl_log`.
//!
//!     lines    what is written of connections, and by a writer that fails
//!     files    a log in a file
#![tactic(auto)]

#[cfg(test)]
mod files;
#[cfg(test)]
mod lines;
