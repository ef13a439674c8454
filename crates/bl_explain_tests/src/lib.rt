//! The tests of `bl_explain` and `bl_explain_text`.
//!
//!     base        setups, and what is found in them by names
//!     asked       an access over a setup file, and all that is told of it
//!     denials     the worked denials, each with its explanation
//!     asked_rule  a rule over a setup file, and all that is told of it
//!     rules       the worked rules, each with its explanation
//!     grounds     which access decides, what made its grounds, and what they are behind a monitor's entries
//!     lines       which line of a setup file declared a name or a right
//!     walk        a worked example step by step
//!     walks       those of the examples
#![tactic(auto)]

#[cfg(test)]
mod asked;
#[cfg(test)]
mod asked_rule;
#[cfg(test)]
mod base;
#[cfg(test)]
mod denials;
#[cfg(test)]
mod grounds;
#[cfg(test)]
mod lines;
#[cfg(test)]
mod rules;
#[cfg(test)]
mod walk;
#[cfg(test)]
mod walks;
