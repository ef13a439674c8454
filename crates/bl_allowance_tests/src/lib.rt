//! The tests of `bl_allowance`.
//!
//!     script      a stream that answers as a script says
//!     base        reads of such a stream, and what is asserted of them
//!     reads       whole lines, long lines, the last line, and a run that no other follows
//!     ends        a run that takes no more
//!     room        room that is set aside, given back and refused, by one thread and by two
//!     memory      what a read does where a growth is refused
#![tactic(auto)]

#[cfg(test)]
mod base;
#[cfg(test)]
mod ends;
#[cfg(test)]
mod memory;
#[cfg(test)]
mod reads;
#[cfg(test)]
mod room;
#[cfg(test)]
mod script;
