//! The setup that stands where all has ended, and its text: so that a run may begin with what another one left.
//!
//!     laws      that the text of a setup reads as it, that what is reached has one, and that runs over what others left are told as one
//!     text      the text of a setup, and how long it is
//!     put       the same, put line by line
//!     line      the lines of a setup, and which stands behind which
//!     spell     the tokens of a line
//!     count     how long a line is
//!
//! The definitions stand in specs/:
//!
//!     Texts     the text of a setup
//!     Whole     which setups have a text that reads as them
//!     Lines     its lines one by one
//!     Counts    how long a line is, token by token
//!     Orders    one order behind another, as one
//!     Told      what is told of two histories
//!     Chains    runs one after another, each over what the one before left
#![tactic(auto)]

mod count;
pub mod laws;
mod line;
pub mod put;
mod spell;
pub mod text;
