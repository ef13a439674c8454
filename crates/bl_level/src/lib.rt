//! Levels and the scheme that they belong to. What they are named and written with, names and tokens, is passed on from below.
//!
//!     level         a rank and a set of categories, and which level dominates which
//!     scheme        the names of the ranks and of the categories: a level's numbers are places among them
//!     level_text    the text of a level, read and written
#![tactic(auto)]

pub mod level;
pub mod level_text;
pub mod scheme;

pub use bl_name::{laws, lexer, name, table, token};
