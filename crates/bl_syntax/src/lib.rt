//! From the bytes of a line to the line that they spell, or the place of the first fault.
//!
//!     read     reads a line's bytes
//!     parse    the parser, token by token
//!     raw      lines as they are spelled
//!     stop     where parsing stopped
#![tactic(auto)]

mod parse;
pub mod raw;
pub mod read;
mod stop;
