//! How much of a trail's text is left: which lines may be admitted, so that it stays within a limit.
//!
//!     asks     who says which lines may be admitted: a quota, or nobody
//!     quota    the count, and what it answers of a line
//!     sizes    what the entries of a core have in the text, and what may still come of them
#![tactic(auto)]

pub mod asks;
pub mod quota;
mod sizes;
