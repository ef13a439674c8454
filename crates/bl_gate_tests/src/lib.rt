//! The tests of `bl_gate`, `bl_worker` and `bl_serve`.
//!
//!     base        a gate over the base setup, and what the tests ask of it
//!     memory      a turn where a growth is refused
//!     writes      what one pass finds of its own calls
//!     turns       one turn through the gate, and its trail
//!     several     several calls in one turn at the gate
//!     overlaps    two behaviours that run side by side
//!     ends        how two passes end what each has in hand
//!     orders      entries that end in another order than they started
//!     served      how a session over a gate ended
//!     sessions    a session with one thread
//!     faults      a reader and a writer that fail
//!     clashes     somebody else speaks for the session
//!     readers     two sessions that run side by side
#![tactic(auto)]

#[cfg(test)]
mod base;
#[cfg(test)]
mod clashes;
pub mod ends;
#[cfg(test)]
mod faults;
#[cfg(test)]
mod memory;
#[cfg(test)]
mod orders;
#[cfg(test)]
mod overlaps;
#[cfg(test)]
mod readers;
#[cfg(test)]
mod served;
#[cfg(test)]
mod sessions;
#[cfg(test)]
mod several;
#[cfg(test)]
mod turns;
#[cfg(test)]
mod writes;
