//! How runs keep their trails: none, or one that is written at the end, or one that is kept as they go, in a journal over a
//! device; what those with a journal begin with, and how they end.
//!
//!     begin      the hall and the journal that a run begins with: new, or those of a run that was cut off
//!     recorded   how such a run ends, and its file
//!     plan       how a run keeps its trail, and how any run ends
#![tactic(auto)]

pub mod begin;
pub mod plan;
pub mod recorded;
