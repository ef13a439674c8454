//! The rules that a trail's run applied, by its text alone: with them `bl_explain` says since when something is decided so.
//!
//!     ruled     the verdict on a trail's text, and the rules that its starts applied
//!     follow    follows the lines of a trail to its end, and notes the rules
//!     policy    the policy that rules make
//!
//! The definitions stand in specs/:
//!
//!     Ruled     the rules of a text
//!     Noting    the rules of an event, and of the lines that were followed
#![tactic(auto)]

mod follow;
pub mod policy;
pub mod ruled;
