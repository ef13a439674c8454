//! The tests of `bl_connection`.
//!
//!     streams     readers and writers in memory that block, fail, and give and take little at a time
//!     shows       replies to works that show one text
//!     base        a connection over them, whose works are answered as soon as they are asked
//!     texts       what is written to the worked examples, however the stream goes
//!     faults      streams that fail, and inputs that are too long
//!     memory      what a connection does where a growth is refused
//!     rooms       how much room a read has
#![tactic(auto)]

#[cfg(test)]
mod base;
#[cfg(test)]
mod faults;
#[cfg(test)]
mod memory;
#[cfg(test)]
mod rooms;
pub mod shows;
#[cfg(test)]
mod streams;
#[cfg(test)]
mod texts;
