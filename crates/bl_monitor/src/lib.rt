//! The monitor answers the entries of an admission order one after another, in one thread, as the definitions of the
//! order say. Sessions run on a hall, not on it: a replay asks it, and tests compare a core with it. It shares no code
//! with bl_eval, which runs behaviours on what a core lent to them, so that the two can be compared; both search by the
//! library bstr.
//!
//!     monitor    the monitor and its entries
//!     place      what is kept of each place of the order
//!     judge      what an entry is answered, and what it changes
//!     run        a behaviour while it runs
//!     text       what a condition asks of a text
//!     laws       how its answers hang together with the machine that a core is
#![tactic(auto)]

mod judge;
pub mod laws;
pub mod monitor;
mod place;
mod run;
mod text;
