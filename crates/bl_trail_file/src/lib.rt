//! The names of a trail's file, and of those beside it: which there are, what stands there, and how a file gets one.
//!
//!     fault      why a trail is not kept
//!     places     the names of a journal's files
//!     stands     what stands under a name
//!     part       the file that a trail is written to before it has its name
//!     link       how a file gets the name of its trail, and loses one
//!     told       what is said of where a trail is left
#![tactic(auto)]

pub mod fault;
pub mod link;
pub mod part;
pub mod places;
pub mod stands;
pub mod told;
