//! The tests of the language of the lines.
//!
//!     fixtures      names, what lines ask by them, and tables of lines
//!     lines         what lines ask, and what is wrong with them
//!     rules         the same of rules
//!     write         the text of tokens and of lines
//!     rule_texts    the texts of rules, and which rules have one
//!     knows         which works some text reads as
//!     deepest       the deepest lines, on a thread's stack
//!     walks         what the walk of a `when` takes
//!     shares        each call that gives one more owner
#![tactic(auto)]

#[cfg(test)]
mod deepest;
#[cfg(test)]
mod fixtures;
#[cfg(test)]
mod knows;
#[cfg(test)]
mod lines;
#[cfg(test)]
mod rule_texts;
#[cfg(test)]
mod rules;
#[cfg(test)]
mod shares;
#[cfg(test)]
mod walks;
#[cfg(test)]
mod write;
