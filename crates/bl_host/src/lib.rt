//! Sessions over sockets, many on each session thread, and the workers beside them. Where they come in and how they
//! end is passed on from below.
//!
//!     context    what a thread works with, and what a worker does
//!     leave      connections whose sessions are over, and whose clients still send
//!     full       that no line will ever fit in the trail any more
//!     shared     the quota of the trail, which session threads share
//!     attend     what a session thread does
//!     threads    threads that are started and joined
//!     upkeep     the thread that has all kept for those that wait at desks
//!     oversee    what the main thread does while the others run
//!     host       all of them, round one gate
#![tactic(auto)]

mod attend;
mod context;
mod full;
pub mod host;
mod leave;
mod oversee;
mod shared;
mod threads;
mod upkeep;

pub use bl_entrance::{ended, entrance};
