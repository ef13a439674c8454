//! What a document holds.
//!
//!     document    the bytes of a content, shared
#![tactic(auto)]

pub mod document;
