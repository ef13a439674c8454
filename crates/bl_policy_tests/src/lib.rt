//! The tests of `bl_level` and `bl_policy`.
//!
//!     schemes       names, and the scheme of the base setup
//!     levels        levels, and which dominates which
//!     level_text    the text of a level, and the faults of a scheme
//!     lexer         tokens, their places and lexical faults
//!     table         a table of names
//!     fixtures      what is done to a policy and asked of it, step by step; and the base policy
//!     decisions     what a policy decides, and what it has
//!     rules         rules, and what is decided after each of them
//!     presence      documents that come and go
#![tactic(auto)]

#[cfg(test)]
mod decisions;
#[cfg(test)]
mod fixtures;
#[cfg(test)]
mod level_text;
#[cfg(test)]
mod levels;
#[cfg(test)]
mod lexer;
#[cfg(test)]
mod presence;
#[cfg(test)]
mod rules;
#[cfg(test)]
mod schemes;
#[cfg(test)]
mod table;
