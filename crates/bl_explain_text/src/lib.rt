//! The words and lines that tell why an access or a rule is granted or denied.
//!
//!     reasons       why a test is answered so
//!     rule_reasons  why a condition of a rule is answered so
//!     telling       the lines of an explanation
#![tactic(auto)]

pub mod reasons;
pub mod rule_reasons;
pub mod telling;
