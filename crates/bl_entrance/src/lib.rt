//! Where session threads take connections and wait, and what they tell of them.
//!
//!     ended       how a session ended that was not served to its end
//!     socket      a connection that does not wait
//!     wait_counts what the sockets of a thread know of its waits
//!     watch       where a thread waits until a socket is ready or its alarm is rung
//!     entrance    where clients come in: a port, or doors
//!     callers     where the connections of a thread came from
//!     first       what a connection sent first
//!     looks       when a thread looks for connections that are idle
//!     acceptor    where threads take connections, and tell what became of them
#![tactic(auto)]

pub mod acceptor;
pub mod callers;
pub mod ended;
pub mod entrance;
pub mod first;
pub mod looks;
pub mod socket;
mod wait_counts;
pub mod watch;
