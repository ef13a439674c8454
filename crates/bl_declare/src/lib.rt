//! From a line of a setup file to what it declares, in its own words, and why a setup file is refused.
//!
//!     line           the declaration that a line spells
//!     declaration    a declaration, by the words of its line
//!     parser         from tokens to a declaration
//!     fault          why a file is refused
#![tactic(auto)]

pub mod declaration;
pub mod fault;
pub mod line;
mod parser;
