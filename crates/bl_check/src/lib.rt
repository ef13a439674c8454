//! What is wrong with a `when` that is spelled as it should be: its first fault, in a fixed order.
//!
//!     check    the faults of a `when`, in their order
//!     count    too deep, too many
//!     known    unknown documents
//!     once     documents declared twice
//!     modes    documents used in a mode that is not declared
#![tactic(auto)]

pub mod check;
mod count;
pub mod known;
mod modes;
mod once;
