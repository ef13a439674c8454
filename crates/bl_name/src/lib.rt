//! Names, and the tokens that all texts of the server are written in.
//!
//!     token    reserved words, names, texts and signs
//!     lexer    from bytes to tokens
//!     name     a word of 1 to 32 bytes that is not reserved
//!     table    names in the order in which they were added, none twice
//!     laws     what holds of every list of tokens and its canonical text
#![tactic(auto)]

pub mod laws;
pub mod lexer;
pub mod name;
pub mod table;
pub mod token;
