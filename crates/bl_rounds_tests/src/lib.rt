//! The tests of `bl_rounds`, and of `bl_crowd` below it.
//!
//!     streams     readers and writers in memory that block, fail, and give and take little at a time
//!     base        a gate over the base setup, and the clients of a thread over streams in memory
//!     texts       what each of several clients is told, however its stream goes
//!     departures  clients that leave while others stay, and clients that come later
//!     pipelines   many lines of a client, and many entries of several, in few rounds
//!     rounds      greetings, idle clients, and work that is left to others
//!     wakes       what wakes a thread that waits
#![tactic(auto)]

#[cfg(test)]
mod base;
#[cfg(test)]
mod departures;
#[cfg(test)]
mod pipelines;
#[cfg(test)]
mod rounds;
#[cfg(test)]
mod streams;
#[cfg(test)]
mod texts;
#[cfg(test)]
mod wakes;
