//! What crates far apart know of what the program is asked for, and the version that it tells. It stands on nothing.
//!
//!     options    how many threads, sessions and clients `serve` has, how long one may be idle, how long a trail becomes
//!     trail      where a trail is kept
//!     version    the version of the program
#![tactic(auto)]

pub mod options;
pub mod trail;
pub mod version;
