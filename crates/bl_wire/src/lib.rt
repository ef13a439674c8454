//! What goes between a client and a session: lines cut from a reader's bytes, and the texts of replies.
//!
//!     ends       readers and writers of which contracts can say what a call answered
//!     watched    readers and writers that remember whether they failed
//!     ear        who hears the bytes that a reader shows
//!     fault      why a session ends early
//!     part       the part of a line among the bytes that a reader shows
//!     held       a line while it comes
//!     turn       what a line is to a session
//!     words      writes answers
//!     reply      writes refusals
//!     put        writes the whole of some bytes
#![tactic(auto)]

pub mod ear;
pub mod ends;
pub mod fault;
pub mod held;
pub mod part;
pub mod put;
pub mod reply;
pub mod turn;
pub mod watched;
pub mod words;
