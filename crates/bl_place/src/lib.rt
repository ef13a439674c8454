//! What is kept of each place of the order and of each document: the entry and where it stands, what it claims in the queues, and
//! the document's content, which may be lent.
//!
//!     place      an entry with where it stands, and what it does
//!     claims     what a place claims in the queues
//!     shelf      where the documents' contents are kept
//!     session    the numbers of sessions
#![tactic(auto)]

pub mod claims;
pub mod place;
pub mod session;
pub mod shelf;
