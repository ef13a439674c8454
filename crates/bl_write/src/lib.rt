//! The canonical text of a line, and which works some text reads as.
//!
//!     write        writes a line's canonical text
//!     short        puts it into a short line, which takes no memory
//!     knows        which works some text reads as
//!     line_len     how long a line's canonical text is
//!     matching     whether a text is the canonical one of a work
//!     canonical    laws of the canonical text
//!     spell_work   the tokens of a work
//!     spell        the tokens of a script
//!     spell_rules  the tokens of a rule
//!     sink         what takes tokens one by one
//!     room         what bytes and tokens are added to
#![tactic(auto)]

pub mod canonical;
pub mod knows;
pub mod line_len;
pub mod matching;
mod room;
pub mod short;
pub mod sink;
mod spell;
pub mod spell_rules;
mod spell_work;
pub mod write;
