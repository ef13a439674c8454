//! A `when` without fault, read in one walk: from its bytes to its script, with no tree between them.
//!
//!     plain    the walk
//!     unread   what is left of a line while it is walked
//!     parts    what a script is put together from
#![tactic(auto)]

pub mod parts;
pub mod plain;
mod unread;
