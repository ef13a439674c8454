//! A connection: a session over one stream that may say that it would block. It reads and writes once at a call, and
//! waits for nothing.
//!
//!     stream        a stream whose two directions do not disturb each other, and how it answers
//!     known         what is known of a stream's bytes, for clauses alone
//!     connection    a conversation with its stream, what was read and not heard yet, and what was told and not written yet
//!     telling       tells a block into a list of bytes
//!     laws          what holds of each connection, whoever owns it
#![tactic(auto)]

pub mod connection;
pub mod known;
pub mod laws;
pub mod stream;
mod telling;
