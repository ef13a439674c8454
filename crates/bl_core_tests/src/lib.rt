//! The tests of `bl_core` and `bl_hall`: the worked examples of a core and a hall, and one list of entries in many
//! orders.
//!
//!     base         a core over the base setup, and what the tests ask of it
//!     entries      entries, each with its answer, and what holds once they have ended
//!     examples     what is allowed, denied and changed, entry after entry
//!     carried      what a behaviour carries from its parents
//!     presence     documents that come and go
//!     starts       which entries may start
//!     refusals     what a core refuses: sessions, names, and what it did not lend
//!     memory       what is left where a growth is refused
//!     losses       what is lost though nobody tried it
//!     orders       one list of entries in many orders, each answer compared with the monitor's
//!     halls        a hall over the base setup, and what the tests ask of it
//!     answers      what a hall answers its sessions
//!     trails       which events a hall keeps
//!     starved      what is left in a hall where a growth is refused
#![tactic(auto)]

#[cfg(test)]
mod answers;
#[cfg(test)]
mod base;
#[cfg(test)]
mod carried;
#[cfg(test)]
mod entries;
#[cfg(test)]
mod examples;
#[cfg(test)]
mod halls;
#[cfg(test)]
mod losses;
#[cfg(test)]
mod memory;
#[cfg(test)]
mod orders;
#[cfg(test)]
mod presence;
#[cfg(test)]
mod refusals;
#[cfg(test)]
mod starts;
#[cfg(test)]
mod starved;
#[cfg(test)]
mod trails;
